// What can be wrong with the bytes of a table.
ghost use Rattle.std.specs.Prelude.{◌≡◌};
ghost use Rattle.tables.specs.Flaws as flaws;

#[derive(Clone, Copy, PartialEq, Eq, Debug)]
pub enum Flaw {
    // A field is cut: fewer bytes are left than the header or the length asks for.
    Cut = 1,
    // The tag is unknown, out of order or once too many, or the bytes end before an output stood.
    Order = 2,
    // A field ends too early or too late, or has a 17th operation.
    Extent = 3,
    // A number or a byte is out of range, or a ninth window stands.
    Range = 4,
    // A reading rule is broken.
    Reading = 5,
    // The stack rule is broken.
    Stack = 6,
    // A chain of reads returns to its start.
    Circle = 7,
    // The buffer is too short to write into.
    Short = 8,
}

impl Flaw {
    // The number by which the refusal is known.
    pub fn number(self) -> u8
        ensures { result ≡ flaws.number self }
    {
        self as u8
    }

    // The refusal of what has the flaw at a place.
    pub fn at(self, place: usize) -> Refused
        ensures { result ≡ record { flaw = self; place = place } }
    {
        Refused { flaw: self, place }
    }
}

// A refusal: what is wrong, and the first byte of the field that has it, or the place that stands for no field.
#[derive(Clone, Copy, PartialEq, Eq, Debug)]
pub struct Refused {
    pub flaw: Flaw,
    pub place: usize,
}
