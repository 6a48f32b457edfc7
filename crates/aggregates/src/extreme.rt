// One value that is picked of all, where there is one. It has 32 signed bits as each value has, so it needs no clamp.
ghost use Rattle.std.specs.Prelude.{◌≡◌, ℤ};

use crate::aggregate::Aggregate;
use std::marker::PhantomData;

// Which of two values is picked.
pub trait Pick {
    ghost picked: { ℤ → ℤ → ℤ };

    fn pick(a: i32, b: i32) -> i32
        ensures { result ≡ picked a b };

    ghost assoc: { (a b c : ℤ) → picked (picked a b) c ≡ picked a (picked b c) };
}

#[derive(Clone, Copy)]
pub struct Extreme<P> {
    pub best: Option<i32>,
    pub by: PhantomData<P>,
}

impl<P: Pick> Aggregate for Extreme<P> {
    ghost use Rattle.aggregates.specs.Partials.{extremes};
    ghost use Rattle.aggregates.specs.Picks.{best};
    ghost use Rattle.aggregates.specs.ExtremeLaws.{extreme_joins, extreme_exact};

    ghost mapped = { (extremes P.picked).mapped };

    ghost neutral = { (extremes P.picked).neutral };

    ghost joined = { (extremes P.picked).joined };

    ghost finished = { (extremes P.picked).finished };

    ghost whole = { best P.picked };

    ghost laws = { extreme_joins _ P.picked P.assoc };

    ghost exact = { λ xs _ _. extreme_exact _ P.picked P.assoc xs };

    fn from_value(value: i32) -> Extreme<P> {
        Extreme {
            best: Some(value),
            by: PhantomData,
        }
    }

    fn neutral() -> Extreme<P> {
        Extreme {
            best: None,
            by: PhantomData,
        }
    }

    fn join(self, other: Extreme<P>) -> Extreme<P> {
        let best = match (self.best, other.best) {
            (Some(a), Some(b)) => Some(P::pick(a, b)),
            (a, b) => a.or(b),
        };
        Extreme {
            best,
            by: PhantomData,
        }
    }

    fn finish(self) -> Option<i32> {
        self.best
    }
}
