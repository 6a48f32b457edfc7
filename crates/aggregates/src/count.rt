// How many values there were. The number wraps at 2 ^ 32.
ghost use Rattle.std.specs.Prelude.{◌^◌, ◌<◌};

use crate::aggregate::Aggregate;
use crate::clamp::to_i32;

#[derive(Clone, Copy)]
pub struct Count {
    pub n: u32,
    // With this fact the laws hold of every partial, with no premise.
    ghost fits: { n < 2 ^ 32 },
}

#[tactic(auto, using(crate::specs::CountLaws::count_same))]
impl Aggregate for Count {
    ghost use Rattle.aggregates.specs.Partials.{counts};
    ghost use Rattle.aggregates.specs.CountLaws.{count_joins, count_exact};

    ghost mapped = { counts.mapped };

    ghost neutral = { counts.neutral };

    ghost joined = { counts.joined };

    ghost finished = { counts.finished };

    ghost whole = { counts.whole };

    ghost laws = { count_joins };

    ghost exact = { λ xs few _. count_exact xs few };

    fn from_value(_value: i32) -> Count {
        Count { n: 1 }
    }

    fn neutral() -> Count {
        Count { n: 0 }
    }

    fn join(self, other: Count) -> Count {
        Count {
            n: self.n.wrapping_add(other.n),
        }
    }

    fn finish(self) -> Option<i32> {
        Some(to_i32(i64::from(self.n)))
    }
}
