// The tests of a call's values, all numbers of a series at once.
ghost use Rattle.std.specs.Prelude.{◌≡◌, Bool, ◌+◌, ◌-◌, ◌≤◌, length, Float};
ghost use Rattle.values.specs.Accepted.{accepted, tick, all};
ghost use Rattle.values.specs.inner.Quick.{BitsOf};
ghost use Rattle.values.specs.inner.Fraction.{comes_back};
ghost use Rattle.values.specs.inner.Part.{Answers, Passing};
ghost use Rattle.cells.specs.Line.{line};

use limits::{LARGEST_TICK_BITS, LARGEST_VALUE_BITS};

// The bits of the numbers of s from index `first` up to `end`, one upon the other (OR), so that none has larger ones.
// What is not below 2^31 counts as that.
pub fn or_of_bits(s: &[f64], first: usize, end: usize) -> u64
    requires { end ≤ length s.now }
    ensures { BitsOf (line s.now) first (end - first) result }
{
    let mut together = 0;
    // `first` may lie beyond `end`, and there is no slice from it then: so the loop goes by index.
    for i in first..end {
        together |= f64::to_bits(crate::cap(s[i]));
    }
    together
}

// Whether the `count` numbers of s from index `first` on pass the test, and none of them is -0.0. All are looked at,
// and what was found is kept in two variables: so the loop takes several at a time.
fn each_passes<F: Fn(f64) -> bool>(s: &[f64], first: usize, count: usize, passes: F) -> bool
    requires s_in_bounds { first + count ≤ length s.now }
    requires callable { F.IsAlwaysCallable passes }
    ensures { (test : Float → Bool) → Answers test (F.post passes)
        → Passing test (line s.now) first count result }
{
    let mut passed = true;
    let mut minus_zeros = 0;
    for x in &s[first..first + count] {
        passed &= passes(*x);
        minus_zeros |= crate::minus_zero_bits(*x);
    }
    passed & (minus_zeros == 0)
}

// Whether a series may hold the `count` numbers of s from index `first` on.
pub fn range_accepted(s: &[f64], first: usize, count: usize) -> bool
    requires { first + count ≤ length s.now }
    ensures { Passing accepted (line s.now) first count result }
{
    each_passes(s, first, count, crate::within_limit)
}

// Whether a series may hold every number of s from index `first` on. Where their bits together are at most those of
// 2^30, every one lies from 0.0 to 2^30; most series pass this quick test. It is not tried if the first 16 numbers of s
// fail it, as prices on both sides of 0 mostly do.
pub fn accepted_from(s: &[f64], first: usize) -> bool
    requires { first ≤ length s.now }
    ensures { Passing accepted (line s.now) first (length s.now - first) result }
{
    if or_of_bits(s, 0, cells::smaller(s.len(), 16)) <= LARGEST_VALUE_BITS {
        if or_of_bits(s, first, s.len()) <= LARGEST_VALUE_BITS {
            return true;
        }
    }
    range_accepted(s, first, s.len() - first)
}

// Whether a series may hold every number of s.
pub fn all_accepted(s: &[f64]) -> bool
    ensures { result ≡ all accepted s.now }
{
    accepted_from(s, 0)
}

// What one pass over a series finds: the bits of its numbers together, and whether each comes back from beside 2^52.
#[derive(Clone, Copy)]
struct Gathered {
    bits: u64,
    whole: bool,
}

// All numbers are looked at, so that the loop takes several at a time. It is not `or_of_bits` and a second pass, since
// a series is read once.
fn gather(s: &[f64]) -> Gathered
    ensures { BitsOf (line s.now) 0 (length s.now) result.bits
        × (result.whole ≡ all comes_back s.now) }
{
    let mut bits = 0;
    let mut whole = true;
    for x in s {
        bits |= f64::to_bits(crate::cap(*x));
        whole &= crate::is_whole(*x);
    }
    Gathered { bits, whole }
}

// Whether every number of s is a whole tick, of either sign.
fn each_tick(s: &[f64]) -> bool
    ensures { result ≡ all tick s.now }
{
    each_passes(s, 0, s.len(), crate::is_tick_size)
}

// Whether every number of s is a whole tick. Where prices have fractions the first one mostly shows it; where all
// bits together are at most those of 2^24, every number lies from 0.0 to 2^24. If the first 16 fail that, as prices on
// both sides of 0 mostly do, each is tested by itself at once.
pub fn all_ticks(s: &[f64]) -> bool
    ensures { result ≡ all tick s.now }
{
    if s.is_empty() {
        return true;
    }
    if !crate::is_tick(s[0]) {
        return false;
    }
    if or_of_bits(s, 0, cells::smaller(s.len(), 16)) > LARGEST_TICK_BITS {
        return each_tick(s);
    }
    let found = gather(s);
    if found.bits <= LARGEST_TICK_BITS {
        return found.whole;
    }
    each_tick(s)
}
