// The kinds of aggregate.
ghost use Rattle.std.specs.Prelude.{◌≡◌, true, Some, None, ◌≢◌};
ghost use Rattle.aggregates.specs.Kinds.{Decodes, number, kind_figure, kind_whole};
ghost use Rattle.aggregates.specs.Picks.{Least, Greatest};
ghost use Rattle.aggregates.specs.Wholes.{Few};
ghost use Rattle.aggregates.specs.Worked.{all_pass, worked_cases};

use crate::average::Average;
use crate::count::Count;
use crate::largest::Largest;
use crate::panes::figure;
use crate::smallest::Smallest;
use crate::sum::Sum;

#[derive(Clone, Copy, Debug, PartialEq, Eq, Hash)]
pub enum Kind {
    Count = 1,
    Sum = 2,
    Smallest = 3,
    Largest = 4,
    Average = 5,
}

// A number that no kind has.
#[derive(Clone, Copy, Debug, PartialEq, Eq, Hash)]
pub struct UnknownKind(pub u8);

impl From<Kind> for u8 {
    ghost from_gives = { λ kind n. n ≡ number kind };

    fn from(kind: Kind) -> u8 {
        kind as u8
    }
}

impl TryFrom<u8> for Kind {
    type Error = UnknownKind;

    ghost try_from_gives = { Decodes };

    fn try_from(n: u8) -> Result<Kind, UnknownKind> {
        match n {
            1 => Ok(Kind::Count),
            2 => Ok(Kind::Sum),
            3 => Ok(Kind::Smallest),
            4 => Ok(Kind::Largest),
            5 => Ok(Kind::Average),
            _ => Err(UnknownKind(n)),
        }
    }
}

impl Kind {
    // The kind's number, which no other kind has.
    pub fn number(self) -> u8
        ensures value { result ≡ number self }
        ensures only { (kind : Kind) → number kind ≡ result → kind ≡ self }
    {
        u8::from(self)
    }

    // The kind whose number is `n`.
    pub fn from_number(n: u8) -> Option<Kind>
        ensures { elim result [ Some kind ↦ number kind ≡ n | None ↦ ((kind : Kind) → number kind ≢ n) ] }
    {
        Kind::try_from(n).ok()
    }

    // The kind's figure of the values.
    pub fn figure(self, values: &[i32]) -> Option<i32>
        ensures value { result ≡ kind_figure self values.now }
        ensures exact { Few values.now → result ≡ kind_whole self values.now }
    {
        match self {
            Kind::Count => figure::<Count>(values),
            Kind::Sum => figure::<Sum>(values),
            Kind::Smallest => figure::<Smallest>(values),
            Kind::Largest => figure::<Largest>(values),
            Kind::Average => figure::<Average>(values),
        }
    }
}

// In whole numbers, the figure of the smallest kind is the least value, and that of the largest kind the greatest.
pub fn extremes()
    ensures least { Least (kind_whole Kind.Smallest) }
    ensures greatest { Greatest (kind_whole Kind.Largest) }
{}

// The worked cases hold: of partials, and of whole numbers.
pub fn worked()
    ensures { all_pass worked_cases ≡ true }
{}
