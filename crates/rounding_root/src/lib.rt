// The square root, correctly rounded: a guess with floats at its digits, and the whole number closest to the root.
#![tactic(auto)]

mod whole;

ghost use Rattle.std.specs.Prelude.{◌≡◌, true, false, ◌+◌, ◌*◌, ◌^◌, ◌≤◌, ◌<◌, pos, length};
ghost use Rattle.std.specs.Float.{binary64, fin};
ghost use Rattle.std.specs.Float.Ieee.{lt};
ghost use Rattle.cells.specs.Line.{line};
ghost use Rattle.cells.specs.Written.{Writing};
ghost use Rattle.cells.specs.inner.Touched.{Touched};
ghost use Rattle.rounding_root.specs.inner.Steps.{Digits};
ghost use Rattle.rounding_root.specs.Root.{nearest_root, sqrt_of};

use whole::FIRST;

// The bits of x, moved by an even power of two so that it lies from 1/2 up to 2. What is not above zero counts as 1.
fn scaled(x: f64) -> u64
    ensures { result < 1025 * 2 ^ 52 }
{
    let some = if x > 0.0 { x } else { 1.0 };
    let bits = f64::to_bits(some);
    bits % (2 * FIRST) + 1022 * FIRST
}

// A guess at the root of the number with these bits, which lies from 1/2 up to 4. The first guess at the inverse root
// comes from the bits, and three steps double its digits. In the last step a is s cut to 26 digits, so that a * a is
// exact and x - s * s is known to its last digits. The guess is nearly always right, and only the speed rests on that.
fn guess(bits: u64) -> f64
    requires { bits < 1025 * 2 ^ 52 }
{
    let x = f64::from_bits(bits);
    let y = f64::from_bits(0x5fe6_eb50_c7b5_37a9 - bits / 2);
    let s0 = x * y;
    let h0 = y * 0.5;
    let r0 = 1.5 - s0 * h0;
    let s1 = s0 * r0;
    let h1 = h0 * r0;
    let r1 = 1.5 - s1 * h1;
    let s2 = s1 * r1;
    let h2 = h1 * r1;
    let r2 = 1.5 - s2 * h2;
    let s = s2 * r2;
    let h = h2 * r2;
    let a = (s + 201326592.0) - 201326592.0;
    s + ((x - a * a) - (s - a) * (s + a)) * h
}

// The root of p * 2 ^ (e + 53) squares of the smallest f64, by a guess at its digits.
fn root_of(p: u64, e: u64, guess: f64) -> f64
    requires { (Digits p) × (e < 3072) }
    ensures { result ≡ nearest_root binary64 (p * 2 ^ (e + 53)) }
{
    let twice = 1 - e % 2;
    let q = whole::closest(p << twice, guess);
    f64::from_bits((e + 1) / 2 * FIRST + q)
}

// The root of t smallest f64s. The digits of t are moved up, so that there are 53.
fn root_of_subnormal(t: u64) -> f64
    requires { (0 < t) × (t < 2 ^ 52) }
    ensures { result ≡ nearest_root binary64 (t * 2 ^ 1074) }
{
    let zeros = u64::leading_zeros(t) as u64 - 11;
    let p = t << zeros;
    let e = 1021 - zeros;
    root_of(p, e, guess(p + (1023 - e % 2) * FIRST))
}

// The root of a number above zero, by the exponent's field and the digits of its bits.
fn root_above_zero(x: f64, guess: f64) -> f64
    requires { lt (fin false 0 (pos 0)) x ≡ true }
    ensures { result ≡ sqrt_of binary64 x }
{
    let bits = f64::to_bits(x);
    let field = bits / FIRST % 0x800;
    let digits = bits % FIRST;
    if field == 0x7ff {
        return x;
    }
    if field == 0 {
        return root_of_subnormal(digits);
    }
    root_of(FIRST + digits, field + 1020, guess)
}

// The f64 nearest to the square root of x: NaN for NaN and below zero, a zero for itself, infinity for infinity. It is
// that whatever the guess at its digits.
pub fn root_by(x: f64, guess: f64) -> f64
    ensures { result ≡ sqrt_of binary64 x }
{
    if x > 0.0 {
        return root_above_zero(x, guess);
    }
    if x == 0.0 {
        return x;
    }
    f64::NAN
}

// The same by a guess of its own.
pub fn square_root(x: f64) -> f64
    ensures { result ≡ sqrt_of binary64 x }
{
    root_by(x, guess(scaled(x)))
}

// Writes guesses at the roots of the first `count` numbers, for `root_by`. Whatever they are, the roots are right: so
// what they are is not said, and no other crate calls this.
fn write_guesses(xs: &[f64], count: usize, guesses: &mut [f64])
    requires { (count ≤ length xs.now) × (count ≤ length guesses.old) }
    ensures { Touched count guesses.old guesses.new }
{
    for i in 0..count {
        guesses[i] = guess(scaled(xs[i]));
    }
}

// Writes the roots of the first `count` numbers. The guesses are made apart from their tests, so that they wait less.
pub fn write_roots(xs: &[f64], count: usize, roots: &mut [f64])
    requires { (count ≤ length xs.now) × (count ≤ length roots.old) }
    ensures { Writing count (λ i. sqrt_of binary64 (line xs.now i)) roots.old
        roots.new }
{
    write_guesses(xs, count, roots);
    for i in 0..count {
        roots[i] = root_by(xs[i], roots[i]);
    }
}
