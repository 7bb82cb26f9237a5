// The mean of whole ticks, on integers.
#![tactic(auto)]

ghost use Rattle.std.specs.Prelude.{◌≡◌, ◌+◌, ◌*◌, ◌/◌, ◌<◌, ◌≤◌, nat_abs, length};
ghost use Rattle.std.specs.Float.Ieee.Nearest.{closest};
ghost use Rattle.averages_ticks.specs.TickMean.{to_tick, tick_mean_line, TickMeanCall};
ghost use Rattle.averages_ticks.specs.inner.Share.{share_of, Shared};
ghost use Rattle.limits.specs.Limits.{longest_window};
ghost use Rattle.cells.specs.Line.{line};
ghost use Rattle.cells.specs.Written.{Writing};
ghost use Rattle.averages_ticks.specs.inner.Ticks.{TickRoom, LeadRoom, Summed, TickSliding};

use calls::Answer;

// The scale of a share.
const SCALE: usize = 1 << 38;

// SCALE / (2 * n), rounded up: a product with it takes the place of a division by 2 * n at every bar.
pub fn share_of(n: usize) -> usize
    requires { (0 < n) × (n ≤ longest_window) }
    ensures { result ≡ share_of n }
{
    SCALE / (2 * n) + 1
}

// size / n to a whole tick, a half up: the product is that, or one too many.
fn half_up(size: usize, n: usize, share: usize) -> usize
    requires { Shared size n share }
    ensures { result ≡ (2 * size + n) / (2 * n) }
{
    let halves = 2 * size + n;
    let guess = halves * share / SCALE;
    if halves < guess * (2 * n) {
        guess - 1
    } else {
        guess
    }
}

// size / n to a whole tick, a half to the even one.
fn half_even(size: usize, n: usize, share: usize) -> usize
    requires { Shared size n share }
    ensures { result ≡ closest size n }
{
    let up = half_up(size, n, share);
    if up * (2 * n) == 2 * size + n {
        up - up % 2
    } else {
        up
    }
}

// sum / n to a whole tick, a half to the even one.
pub fn to_tick(sum: i64, n: usize, share: usize) -> i64
    requires { Shared (nat_abs sum) n share }
    ensures { result ≡ to_tick sum n }
{
    let size = half_even(sum.unsigned_abs() as usize, n, share) as i64;
    if sum < 0 { -size } else { size }
}

// Writes 0 before bar `first`, and gives the sum of those ticks.
fn sum_lead(series: &[f64], first: usize, out: &mut [i64]) -> i64
    requires { LeadRoom series.now first (length out.old) }
    ensures { Summed series.now first result out.old out.new }
{
    let mut sum = 0;
    for i in 0..first {
        sum += series[i] as i64;
        out[i] = 0;
    }
    sum
}

// Writes the cells from bar n - 1 on. `lead` is the sum of the ticks before it; a turn adds the new tick, and takes
// the oldest one away.
fn slide_ticks(series: &[f64], n: usize, lead: i64, out: &mut [i64])
    requires { TickSliding series.now n lead out.old }
    ensures { Writing (length series.now) (tick_mean_line n (line series.now))
        out.old out.new }
{
    let share = share_of(n);
    let mut rest = lead;
    for i in n - 1..series.len() {
        let sum = rest + series[i] as i64;
        out[i] = to_tick(sum, n, share);
        rest = sum - series[i + 1 - n] as i64;
    }
}

// Writes the cells of `tick_mean`.
fn write_tick_means(series: &[f64], n: usize, out: &mut [i64])
    requires { TickRoom series.now n (length out.old) }
    ensures { Writing (length series.now) (tick_mean_line n (line series.now))
        out.old out.new }
{
    if series.len() < n {
        sum_lead(series, series.len(), out);
    } else {
        let lead = sum_lead(series, n - 1, out);
        slide_ticks(series, n, lead, out);
    }
}

// The mean of the last n whole ticks, to a whole tick.
pub fn tick_mean(series: &[f64], n: usize, out: &mut [i64]) -> Answer
    ensures { TickMeanCall series.now n out.old result out.new }
{
    let due = checks::answer_tick_window(series, n, out.len());
    if calls::has_cells(due) {
        write_tick_means(series, n, out);
    }
    due
}
