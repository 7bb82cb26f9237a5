// Both Bollinger rules, one bar: beyond a band, and the position after it; and what their variances are over.
ghost use Rattle.std.specs.Prelude.{◌≡◌, ◌<◌, ◌≤◌, length, false};
ghost use Rattle.std.specs.Float.{binary64};
ghost use Rattle.std.specs.Float.Ieee.{lt};
ghost use Rattle.cells.specs.Line.{plus_zero};
ghost use Rattle.rounding_root.specs.Root.{sqrt_of};
ghost use Rattle.rules_bands.specs.Boll.{beyond};
ghost use Rattle.rules_bands.specs.BollReverse.{turns_at};
ghost use Rattle.rules_bands.specs.inner.Stages.{divisor_of, position_after, position_before};
ghost use Rattle.rules_held.specs.Held.{moved};

// +1 above the band, -1 below it and else 0, each by more than a margin.
fn beyond_at(average: f64, middle: f64, k: f64, width: f64, margin: f64) -> i32
    ensures { result ≡ beyond margin average middle k width }
{
    let reach = k * width;
    if (middle + reach) + margin < average {
        return 1;
    }
    if average < (middle - reach) - margin {
        return -1;
    }
    0
}

// That cell where the width is the root of a variance. Two guesses at the root decide most cells; only the speed
// rests on them.
fn beyond_by_guess(
    average: f64,
    middle: f64,
    k: f64,
    margin: f64,
    variance: f64,
    low: f64,
    high: f64,
) -> i32
    requires { lt margin plus_zero ≡ false }
    ensures { result ≡ beyond margin average middle k (sqrt_of binary64 variance) }
{
    if k >= 0.0 {
        if low >= 0.0 && low * low < variance && beyond_at(average, middle, k, low, margin) == 0 {
            return 0;
        }
        if variance >= 0.0 && high >= 0.0 && variance < high * high {
            let cell = beyond_at(average, middle, k, high, margin);
            if cell != 0 {
                return cell;
            }
        }
    }
    beyond_at(
        average,
        middle,
        k,
        rounding_root::square_root(variance),
        margin,
    )
}

// The guesses lie around the width whose band ends at the average; `inverse` is 1 / k. The numbers are no struct: they
// stay in registers, and each function takes others of them.
fn beyond_by(average: f64, middle: f64, k: f64, inverse: f64, margin: f64, variance: f64) -> i32
    requires { lt margin plus_zero ≡ false }
    ensures { result ≡ beyond margin average middle k (sqrt_of binary64 variance) }
{
    let edge = rounding::magnitude(average - middle) * inverse;
    let slack = (rounding::magnitude(middle) * 1e-15 + margin * 1.1) * inverse;
    let low = edge * 1.000000001;
    let high = edge * 0.999999999 - slack;
    beyond_by_guess(average, middle, k, margin, variance, low, high)
}

// The position after a bar of the reverse rule. The bands are asked only where the position before it is flat: above
// them it opens short, and below them long.
fn turned_by(position: i32, average: f64, middle: f64, k: f64, inverse: f64, variance: f64) -> i32
    ensures { result ≡ moved position (turns_at average middle k (sqrt_of binary64 variance)) }
{
    if position == 0 {
        -beyond_by(average, middle, k, inverse, 0.0, variance)
    } else {
        rules_held::move_position(position, 0, middle < average, average < middle)
    }
}

// The position after a bar, from the one before it. The plain rule asks the bar alone.
// `reverse` is a bool: the definitions in specs/ take it as a Bool, and an enum would be turned into it in each.
pub fn position_after(
    reverse: bool,
    position: i32,
    average: f64,
    middle: f64,
    k: f64,
    inverse: f64,
    variance: f64,
) -> i32
    ensures { result ≡ position_after reverse position average middle k (sqrt_of binary64 variance) }
{
    if reverse {
        turned_by(position, average, middle, k, inverse, variance)
    } else {
        beyond_by(average, middle, k, inverse, 1e-10, variance)
    }
}

// The position before bar i, flat where there is none.
pub fn position_before(out: &[i32], i: usize) -> i32
    requires { i ≤ length out.now }
    ensures { result ≡ position_before i out.now }
{
    if i > 0 { out[i - 1] } else { 0 }
}

// What the squares are divided by: n by the reverse rule, and n - 1 by the plain one.
pub fn divisor(reverse: bool, n: usize) -> usize
    requires { 0 < n }
    ensures { result ≡ divisor_of reverse n }
{
    if reverse { n } else { n - 1 }
}
