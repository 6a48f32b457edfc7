// The average of the values, rounded toward zero, where there is a value.
use crate::aggregate::Aggregate;
use crate::clamp::to_i32;
use crate::count::Count;
use crate::sum::Sum;

#[derive(Clone, Copy)]
pub struct Average {
    pub sum: Sum,
    pub count: Count,
}

impl Aggregate for Average {
    ghost use Rattle.aggregates.specs.Partials.{averages};
    ghost use Rattle.aggregates.specs.AverageLaws.{average_joins, average_exact};

    ghost mapped = { averages.mapped };

    ghost neutral = { averages.neutral };

    ghost joined = { averages.joined };

    ghost finished = { averages.finished };

    ghost whole = { averages.whole };

    ghost laws = { average_joins };

    ghost exact = { average_exact };

    fn from_value(value: i32) -> Average {
        Average {
            sum: Sum::from_value(value),
            count: Count::from_value(value),
        }
    }

    fn neutral() -> Average {
        Average {
            sum: Sum::neutral(),
            count: Count::neutral(),
        }
    }

    fn join(self, other: Average) -> Average {
        Average {
            sum: self.sum.join(other.sum),
            count: self.count.join(other.count),
        }
    }

    fn finish(self) -> Option<i32> {
        let mean = self.sum.total.checked_div(i64::from(self.count.n))?;
        Some(to_i32(mean))
    }
}
