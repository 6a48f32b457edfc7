// Entries, of which a record is a list.
ghost use Rattle.std.specs.Prelude.{◌≡◌};
ghost use Rattle.records.specs.Entries.{sign};

// What an entry tells of: a reading whose cycle ran (R), a deadline whose cycle ran (D), a reading that came late (L)
// and a strange one (S), which names an input that the table has not.
#[derive(Clone, Copy, PartialEq, Eq, Debug)]
pub enum Letter {
    R = b'R' as isize,
    D = b'D' as isize,
    L = b'L' as isize,
    S = b'S' as isize,
}

impl Letter {
    // The letter, as a character's code.
    pub fn sign(self) -> u8
        ensures { result ≡ sign self }
    {
        self as u8
    }
}

// Bit i of the mask stands for input i, bit o of `active` for output o, and bit g of `lit` for trigger g.
// A value is 0 where its output is not active.
// Masks beside the values, and not options, are the form that the project asks for.
#[derive(Clone, Copy, PartialEq, Eq, Debug)]
pub struct Entry {
    pub letter: Letter,
    pub time: u64,
    pub mask: u8,
    pub inputs: [i32; 8],
    pub active: u16,
    pub values: [i32; 16],
    pub lit: u8,
}
