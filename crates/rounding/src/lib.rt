// The leaves: numbers taken apart and rounded, each equal to one definition for every f64.
#![tactic(auto)]

ghost use Rattle.std.specs.Prelude.{◌≡◌, false, is_nan};
ghost use Rattle.rounding.specs.Leaves.{magnitude_of, sign_of, round_to_whole};

// Whether x is no number.
pub fn is_nan(x: f64) -> bool
    ensures { result ≡ is_nan x }
{
    x.is_nan()
}

// x without its sign: the larger of x and its opposite, which is +0.0 for both zeros. std's `abs` asks for a number,
// and this takes a NaN too.
pub fn magnitude(x: f64) -> f64
    ensures { result ≡ magnitude_of x }
{
    let opposite = 0.0 - x;
    if opposite < x { x } else { opposite }
}

// The same for a number, by its bits: all but the highest, the sign.
pub fn magnitude_of_number(x: f64) -> f64
    requires { is_nan x ≡ false }
    ensures { result ≡ magnitude_of x }
{
    f64::from_bits(f64::to_bits(x) % 0x8000_0000_0000_0000)
}

// 1.0 with the sign of a number, by its bits: the highest is the sign.
pub fn sign_of_number(x: f64) -> f64
    requires { is_nan x ≡ false }
    ensures { result ≡ sign_of x }
{
    if f64::to_bits(x) >= 0x8000_0000_0000_0000 {
        -1.0
    } else {
        1.0
    }
}

// 1.0 with the sign of x, and NaN for NaN.
pub fn sign(x: f64) -> f64
    ensures { result ≡ sign_of x }
{
    if is_nan(x) { x } else { sign_of_number(x) }
}

// The whole number nearest x, a half away from zero. From 2^52 on every number is whole.
pub fn round_to_whole(x: f64) -> f64
    ensures { result ≡ round_to_whole x }
{
    let size = magnitude(x);
    if size < 4503599627370496.0 {
        let halves = std::num::truncating_f64_to_u64(size * 2.0);
        let whole = ((halves + 1) / 2) as f64;
        whole * sign(x)
    } else {
        x
    }
}
