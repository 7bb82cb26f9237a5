// The whole number closest to a root: a guess is tested, and a search takes its place where the test fails.
ghost use Rattle.std.specs.Prelude.{◌≡◌, true, ◌+◌, ◌*◌, ◌/◌, ◌^◌, ◌<◌};
ghost use Rattle.rounding_root.specs.inner.Squares.{Closest};
ghost use Rattle.rounding_root.specs.inner.Steps.{Digits, Square, Rooted};

// 2 ^ 52: the weight of the first of 53 digits.
pub const FIRST: u64 = 0x10_0000_0000_0000;

// (h * h + e) / 2 ^ 52, by the halves of h, so that no number has more than 64 bits.
fn high(h: u64, e: u64) -> u64
    requires { (h < 2 ^ 53) × (e < 2 ^ 55) }
    ensures { result ≡ (h * h + e) / 2 ^ 52 }
{
    let a = h / 0x400_0000;
    let b = h % 0x400_0000;
    a * a + (2 * a * b + (b * b + e) / 0x400_0000) / 0x400_0000
}

// Whether q is closest to √(m * 2 ^ 52): with h = q - 1, whether m * 2 ^ 52 is above h * (h + 1) and at most (h + 1)
// * (h + 2).
fn is_closest(m: u64, q: u64) -> bool
    requires { Digits q }
    ensures { result ≡ true → Closest (m * 2 ^ 52) q }
{
    let h = q - 1;
    high(h, h) < m && m <= high(h, 3 * h + 2)
}

// The number closest to √(m * 2 ^ 52), by halving the range that it lies in.
fn searched(m: u64) -> u64
    requires { Square m }
    ensures { Rooted m result }
{
    // The library searches slices by halving, and no range of numbers: so the loop stands here.
    let mut lo = FIRST - 1;
    let mut hi = 2 * FIRST - 2;
    while lo < hi {
        let mid = (lo + hi) / 2;
        if high(mid, 3 * mid + 2) < m {
            lo = mid + 1;
        } else {
            hi = mid;
        }
    }
    lo + 1
}

// The number closest to √(m * 2 ^ 52): the digits of a guess, if they pass the test, and else what a search finds.
pub fn closest(m: u64, guess: f64) -> u64
    requires { Square m }
    ensures { Rooted m result }
{
    if guess > 0.0 {
        let q = FIRST + f64::to_bits(guess) % FIRST;
        if is_closest(m, q) {
            return q;
        }
    }
    searched(m)
}
