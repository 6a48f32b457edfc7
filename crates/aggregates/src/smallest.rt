// The smallest of the values, where there is one.
use crate::extreme::{Extreme, Pick};

pub type Smallest = Extreme<Min>;

// Picks the smaller of two values.
#[derive(Clone, Copy)]
pub struct Min;

impl Pick for Min {
    ghost use Rattle.std.specs.Int.{int_min};
    ghost use Rattle.aggregates.specs.PickLaws.{min_assoc};

    ghost picked = { int_min };

    ghost assoc = { min_assoc };

    fn pick(a: i32, b: i32) -> i32 {
        a.min(b)
    }
}
