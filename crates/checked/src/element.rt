// The outputs and triggers of a table, in fixed memory.
use crate::text::{Message, Name};
use fixed::{Blank, FixedVec};
use tables::op::{Pace, Program};

// An output: when it is worked out, its name, and its operations.
#[derive(Clone, Copy)]
pub struct Output {
    pub pace: Pace,
    pub name: Name,
    pub program: Program,
}

impl Blank for Output {
    ghost use Rattle.checked.specs.Blanks.{blank_output};

    ghost blank = { blank_output };

    fn blank() -> Output {
        Output {
            pace: Pace::Event,
            name: Name::new(),
            program: Program {
                ops: FixedVec::new(),
            },
        }
    }
}

// A trigger: the stream that lights the lamp where its value is not 0, and what is said then.
#[derive(Clone, Copy)]
pub struct Trigger {
    pub stream: u8,
    pub message: Message,
}

impl Blank for Trigger {
    ghost use Rattle.checked.specs.Blanks.{blank_trigger};

    ghost blank = { blank_trigger };

    fn blank() -> Trigger {
        Trigger {
            stream: 0,
            message: Message::new(),
        }
    }
}
