// Figures are clamped to 32 signed bits.
ghost use Rattle.std.specs.Prelude.{◌≡◌};
ghost use Rattle.aggregates.specs.Wholes.{clamped};

// The number of 32 signed bits that is nearest to `v`.
pub fn to_i32(v: i64) -> i32
    ensures { result ≡ clamped v }
{
    v.clamp(i64::from(i32::MIN), i64::from(i32::MAX)) as i32
}
