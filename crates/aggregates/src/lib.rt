// Aggregates of values, with the laws that joining the panes of a window rests on.
#![tactic(auto)]

pub mod aggregate;
pub mod average;
pub mod clamp;
pub mod count;
pub mod extreme;
pub mod kind;
pub mod largest;
pub mod panes;
pub mod smallest;
pub mod sum;

#[cfg(test)]
mod tests {
    use crate::kind::Kind;
    use crate::panes::{join_all, join_newest, slide};
    use crate::sum::Sum;

    #[test]
    fn figures(rt: HostRuntime) {
        let values = [7, -9, 7];
        assert_eq!(rt; Kind::Count.figure(&values), Some(3));
        assert_eq!(rt; Kind::Sum.figure(&values), Some(5));
        assert_eq!(rt; Kind::Smallest.figure(&values), Some(-9));
        assert_eq!(rt; Kind::Largest.figure(&values), Some(7));
        assert_eq!(rt; Kind::Average.figure(&[-3, 0]), Some(-1));
        assert_eq!(rt; Kind::Average.figure(&[-1, 0]), Some(0));
        assert_eq!(rt; Kind::Average.figure(&[]), None);
        assert_eq!(rt; Kind::Sum.figure(&[i32::MAX, i32::MAX]), Some(i32::MAX));
    }

    #[test]
    fn panes_slide(rt: HostRuntime) {
        let mut panes = [Sum { total: 0 }; 3];
        join_newest(&mut panes, 5);
        slide(&mut panes);
        join_newest(&mut panes, 7);
        assert_eq!(rt; join_all(&panes).total, 12);
        slide(&mut panes);
        slide(&mut panes);
        assert_eq!(rt; join_all(&panes).total, 7);
    }
}
