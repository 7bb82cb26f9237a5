// The tests of values: of one, and of a whole series (`series`).
#![tactic(auto)]

pub mod series;

ghost use Rattle.std.specs.Prelude.{◌≡◌, ◌^◌, not, ◌==◌, to_bits};
ghost use Rattle.std.specs.Float.{binary64};
ghost use Rattle.values.specs.Accepted.{within, accepted, tick, finite, all};
ghost use Rattle.rounding.specs.Leaves.{magnitude_of};
ghost use Rattle.values.specs.inner.Quick.{capped};
ghost use Rattle.values.specs.inner.Fraction.{comes_back};
ghost use Rattle.limits.specs.Limits.{value_power};

use limits::{LARGEST_TICK, LARGEST_VALUE};

// Whether x lies within 2^30. A NaN does not.
pub fn within_limit(x: f64) -> bool
    ensures { result ≡ within value_power x }
{
    x >= -LARGEST_VALUE && x <= LARGEST_VALUE
}

// 0, unless x is -0.0.
pub fn minus_zero_bits(x: f64) -> u64
    ensures { (result == 0) ≡ not (to_bits binary64 x == 2 ^ 63) }
{
    if x == 0.0 { f64::to_bits(x) } else { 0 }
}

// Whether a series may hold x.
pub fn is_accepted(x: f64) -> bool
    ensures { result ≡ accepted x }
{
    within_limit(x) & (minus_zero_bits(x) == 0)
}

// Whether x is a whole tick.
pub fn is_tick(x: f64) -> bool
    ensures { result ≡ tick x }
{
    let size = rounding::magnitude(x);
    if size <= LARGEST_TICK {
        let whole = std::num::truncating_f64_to_u64(size);
        if (whole as f64) == size {
            if x == 0.0 {
                return rounding::sign(x) > 0.0;
            }
            return true;
        }
    }
    false
}

// Whether x may be a parameter.
pub fn is_finite(x: f64) -> bool
    ensures { result ≡ finite x }
{
    f64::is_finite(x)
}

// Whether all of them may be parameters.
pub fn all_finite(numbers: &[f64]) -> bool
    ensures { result ≡ all finite numbers.now }
{
    numbers.iter().all(|x| is_finite(*x))
}

// x, or 2^31 where x is not below it, as a NaN is not.
pub fn cap(x: f64) -> f64
    ensures { result ≡ capped x }
{
    if x < 2147483648.0 { x } else { 2147483648.0 }
}

// Whether x comes back when 2^52 is added to it and taken away: beside 2^52 there is no room for a fraction.
pub fn is_whole(x: f64) -> bool
    ensures { result ≡ comes_back x }
{
    (x + 4503599627370496.0) - 4503599627370496.0 == x
}

// Whether x without its sign is a whole tick.
pub fn is_tick_size(x: f64) -> bool
    ensures { result ≡ tick (magnitude_of x) }
{
    let size = rounding::magnitude(x);
    (size <= LARGEST_TICK) & is_whole(size)
}
