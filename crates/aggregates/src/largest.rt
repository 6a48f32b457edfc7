// The largest of the values, where there is one.
use crate::extreme::{Extreme, Pick};

pub type Largest = Extreme<Max>;

// Picks the larger of two values.
#[derive(Clone, Copy)]
pub struct Max;

impl Pick for Max {
    ghost use Rattle.std.specs.Int.{int_max};
    ghost use Rattle.aggregates.specs.PickLaws.{max_assoc};

    ghost picked = { int_max };

    ghost assoc = { max_assoc };

    fn pick(a: i32, b: i32) -> i32 {
        a.max(b)
    }
}
