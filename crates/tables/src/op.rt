// What an output is worked out by.
ghost use Rattle.tables.specs.declared.op.Op.TheVariants.{Add};

use aggregates::kind::Kind;
use fixed::{Blank, FixedVec};

// An operation. The first five push a value on a stack; the others replace the topmost values by one.
#[derive(Clone, Copy, PartialEq, Eq, Debug)]
pub enum Op {
    Number(i32),
    // The value that a stream has in this cycle.
    Now {
        stream: u8,
    },
    // The value that a stream had so many extensions before, or the default.
    Past {
        stream: u8,
        back: u8,
        default: i32,
    },
    // The latest value of a stream, or the default.
    Held {
        stream: u8,
        default: i32,
    },
    // The aggregate of the values that a stream had in the last so many milliseconds, or the default.
    Window {
        stream: u8,
        kind: Kind,
        duration: u32,
        default: i32,
    },
    Add,
    Subtract,
    Multiply,
    Less,
    Equal,
    // The second value where the lowest of three is not 0, else the third.
    Choose,
}

impl Blank for Op {
    ghost blank = { Add };

    fn blank() -> Op {
        Op::Add
    }
}

// At most 16 operations.
#[derive(Clone, Copy)]
pub struct Program {
    pub ops: FixedVec<Op, 16>,
}

// When an output is worked out: with readings, or at each multiple of a period.
#[derive(Clone, Copy, PartialEq, Eq, Debug)]
pub enum Pace {
    Event,
    Every(u32),
}
