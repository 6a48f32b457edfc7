// The sum of the values. It wraps at 64 signed bits.
ghost use Rattle.std.specs.Prelude.{◌^◌, ◌<◌};
ghost use Rattle.std.specs.Int.Signed.{mag};

use crate::aggregate::Aggregate;
use crate::clamp::to_i32;

#[derive(Clone, Copy)]
pub struct Sum {
    pub total: i64,
    // With this fact the laws hold of every partial, with no premise.
    ghost fits: { mag total < 2 ^ 63 },
}

#[tactic(auto, using(crate::specs::SumLaws::sum_same, std::proofs::lemmas::Int::wraps))]
impl Aggregate for Sum {
    ghost use Rattle.aggregates.specs.Partials.{sums};
    ghost use Rattle.aggregates.specs.SumLaws.{sum_joins, sum_exact};

    ghost mapped = { sums.mapped };

    ghost neutral = { sums.neutral };

    ghost joined = { sums.joined };

    ghost finished = { sums.finished };

    ghost whole = { sums.whole };

    ghost laws = { sum_joins };

    ghost exact = { sum_exact };

    fn from_value(value: i32) -> Sum {
        Sum {
            total: i64::from(value),
        }
    }

    fn neutral() -> Sum {
        Sum { total: 0 }
    }

    fn join(self, other: Sum) -> Sum {
        Sum {
            total: self.total.wrapping_add(other.total),
        }
    }

    fn finish(self) -> Option<i32> {
        Some(to_i32(self.total))
    }
}
