// Panes, written once for every aggregate. A pane is the partial of the values of one stretch of time; the panes of a
// window stand oldest first, so that the newest is the last.
ghost use Rattle.std.specs.Prelude.{◌≡◌, List, map, ℤ};
ghost use mathlib.Core.List.{flatten};
ghost use Rattle.aggregates.specs.Figures.{figure_of, partial_of};
ghost use Rattle.aggregates.specs.Folds.{join_of, slid, at_newest, Splits, Slides, Gains};
ghost use Rattle.aggregates.specs.Wholes.{Few};

use crate::aggregate::Aggregate;

// The values' partials, joined in order.
pub fn fold_values<P: Aggregate>(values: &[i32]) -> P
    ensures value { result ≡ partial_of P.Aggregate values.now }
    ensures exact { Few values.now → P.finished result ≡ P.whole values.now }
{
    let mut all = P::neutral();
    for value in values {
        all = all.join(P::from_value(*value));
    }
    all
}

// The figure of the values.
pub fn figure<P: Aggregate>(values: &[i32]) -> Option<i32>
    ensures value { result ≡ figure_of P.Aggregate values.now }
    ensures exact { Few values.now → result ≡ P.whole values.now }
{
    fold_values::<P>(values).finish()
}

// The panes, joined oldest first. Where they are the folds of pieces of a list of values, that is the list's fold.
pub fn join_all<P: Aggregate + Copy>(panes: &[P]) -> P
    ensures value { result ≡ join_of P.neutral P.joined panes.now }
    ensures pieces { (pieces : List (List ℤ)) → panes.now ≡ map (partial_of P.Aggregate) pieces →
        result ≡ partial_of P.Aggregate (flatten pieces) }
{
    panes.iter().fold(P::neutral(), |all, pane| all.join(*pane))
}

// Drops the oldest pane, and gains a neutral one after the newest.
pub fn slide<P: Aggregate + Copy>(panes: &mut [P])
    ensures { panes.new ≡ slid P.neutral panes.old }
{
    if let Some(oldest) = panes.first_mut() {
        *oldest = P::neutral();
        panes.rotate_left(1);
    }
}

// Joins a value to the newest pane.
pub fn join_newest<P: Aggregate + Copy>(panes: &mut [P], value: i32)
    ensures { panes.new ≡ at_newest P.neutral (λ pane. P.joined pane (P.mapped value)) panes.old }
{
    if let Some(newest) = panes.last_mut() {
        *newest = newest.join(P::from_value(value));
    }
}

// What holds of panes that are the folds of pieces of a list of values, whatever the aggregate.
pub fn pane_laws<P: Aggregate>()
    ensures splits { Splits P.neutral P.mapped P.joined }
    ensures slides { Slides P.neutral P.mapped P.joined }
    ensures gains { Gains P.neutral P.mapped P.joined }
{}
