// The interface of an aggregate. The type that implements it is the aggregate's partial: what is kept of some values
// until their figure is asked for.
ghost use Rattle.std.specs.Prelude.{◌≡◌, List, ℤ, Option};
ghost use Rattle.aggregates.specs.Folds.{Joins};
ghost use Rattle.aggregates.specs.Wholes.{Exact};

pub trait Aggregate {
    // The partial of one value.
    ghost mapped: { ℤ → Self };

    // The partial of no value.
    ghost neutral: { Self };

    // The partial of the values of two others, the first one's before the second one's.
    ghost joined: { Self → Self → Self };

    // The figure of a partial's values, or none.
    ghost finished: { Self → Option ℤ };

    // The figure of a list of values in whole numbers without a bound, clamped to 32 signed bits.
    ghost whole: { List ℤ → Option ℤ };

    fn from_value(value: i32) -> Self
        ensures { result ≡ mapped value };

    fn neutral() -> Self
        ensures { result ≡ neutral };

    fn join(self, other: Self) -> Self
        ensures { result ≡ joined self other };

    fn finish(self) -> Option<i32>
        ensures { result ≡ finished self };

    // To join is associative, and the neutral partial changes nothing on either side.
    ghost laws: { Joins neutral joined };

    // Partials of few enough values lose nothing.
    ghost exact: { Exact neutral mapped joined finished whole };
}
