// What a cycle needs of a table, worked out once.
use aggregates::kind::Kind;
use fixed::{Blank, FixedVec};

// A window: the output that it stands in, the stream that it is over, and what it gives.
#[derive(Clone, Copy)]
pub struct Window {
    pub output: u8,
    pub stream: u8,
    pub kind: Kind,
    pub duration: u32,
}

impl Blank for Window {
    ghost use Rattle.checked.specs.Blanks.{blank_window};

    ghost blank = { blank_window };

    fn blank() -> Window {
        Window {
            output: 0,
            stream: 0,
            kind: Kind::Count,
            duration: 0,
        }
    }
}

// Layers and needs are two vectors, since the layers are known first and the order is worked out by them alone.
#[derive(Clone, Copy)]
pub struct Plan {
    // The layer of each output.
    pub layers: FixedVec<u8, 16>,
    // The outputs in the order of evaluation: the event-based ones, and then the periodic ones, each by layer and then
    // by number.
    pub order: FixedVec<u8, 16>,
    // How many outputs are event-based.
    pub events: usize,
    // For each output the streams, as bits, that it uses by now or past, but for itself.
    pub needs: FixedVec<u32, 16>,
    // The windows, by output and then by operation.
    pub windows: FixedVec<Window, 8>,
    // For each stream the windows over it, as bits.
    pub over: [u8; 24],
}
