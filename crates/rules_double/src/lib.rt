// The double rule: one bar of it, its answer, and how its cells are written.
#![tactic(auto)]

ghost use Rattle.std.specs.Prelude.{◌≡◌, ◌<◌, ◌≤◌, ◌-◌, length};
ghost use Rattle.std.specs.Float.{binary64};
ghost use Rattle.std.specs.Float.Ieee.{of_int};
ghost use Rattle.rules_double.specs.inner.Stages.{crossing, Started};
ghost use Rattle.rules_double.specs.inner.Ticks.{ticks_of, spread, change, OverTicks, tick_cells, TickRoom, Spread};
ghost use Rattle.limits.specs.Limits.{Window};
ghost use Rattle.cells.specs.Line.{line};
ghost use Rattle.windows.specs.Window.{add_then_subtract};
ghost use Rattle.windows.specs.inner.Sums.{Running};
ghost use Rattle.cells.specs.Written.{Writing};
ghost use Rattle.rules_double.specs.Double.{double_line, double_answer};

use calls::{Answer, Refusal};

// The sign of the short average less the long one, from the sums of n and of m prices.
pub fn cross(short: f64, n: usize, long: f64, m: usize) -> f64
    requires { Window n × Window m }
    ensures { result ≡ crossing n m short long }
{
    rounding::sign(short / (n as f64) - long / (m as f64))
}

// What bar i adds to the spread of whole ticks.
pub fn change_at(series: &[f64], n: usize, m: usize, i: usize) -> f64
    requires { OverTicks n m series.now × (m ≤ i) × (i < length series.now) }
    ensures { result ≡ of_int binary64 (change n m (ticks_of series.now) i) }
{
    series[i] * ((m - n) as f64) - series[i - n] * (m as f64) + series[i - m] * (n as f64)
}

// The spread of the first m bars.
pub fn first_spread(series: &[f64], n: usize, m: usize) -> f64
    requires { OverTicks n m series.now }
    ensures { result ≡ of_int binary64 (spread n m (ticks_of series.now) m) }
{
    let short = windows::sum_at(series, n, m - 1);
    let rest = windows::sum_at(series, m - n, m - n - 1);
    short * ((m - n) as f64) - rest * (n as f64)
}

// The sum of n prices after bar i: its price is added, and then that of bar i - n subtracted.
pub fn slide_sum(series: &[f64], n: usize, i: usize, sum: f64) -> f64
    requires { (n ≤ i) × (i < length series.now) }
    ensures { result ≡ add_then_subtract sum (line series.now i) (line series.now (i - n)) }
{
    sum + series[i] - series[i - n]
}

// The running sum of the n bars before bar i.
pub fn running_sum(series: &[f64], n: usize, i: usize) -> f64
    requires { Window n × (n ≤ i) × (i ≤ length series.now) }
    ensures { Running add_then_subtract n (line series.now) i result }
{
    let mut sum = windows::sum_at(series, n, n - 1);
    for j in n..i {
        sum = slide_sum(series, n, j, sum);
    }
    sum
}

// Writes the positions from bar m - 1 on, where both averages are there, by running sums. The windows are no struct:
// only two private functions take both.
fn write_crossings(series: &[f64], n: usize, m: usize, out: &mut [f64])
    requires { Started n m series.now out.old }
    ensures { Writing (length series.now) (double_line n m (line series.now))
        out.old out.new }
{
    let mut short = running_sum(series, n, m);
    let mut long = running_sum(series, m, m);
    out[m - 1] = cross(short, n, long, m);
    for i in m..series.len() {
        short = slide_sum(series, n, i, short);
        long = slide_sum(series, m, i, long);
        out[i] = cross(short, n, long, m);
    }
}

// Writes each bar's position.
pub fn write_double(series: &[f64], n: usize, m: usize, out: &mut [f64])
    requires { Window n × Window m × (n < m) × (length series.now ≤ length out.old) }
    ensures { Writing (length series.now) (double_line n m (line series.now))
        out.old out.new }
{
    let first = cells::fill_lead(out, m - 1, series.len(), 0.0);
    if first < series.len() {
        write_crossings(series, n, m, out);
    }
}

// Writes the positions from bar m on, two bars a turn, from the spread of the first m bars. The spreads of every other
// bar are a sum of their own, so that an addition waits for the one two bars before.
fn slide_spreads(series: &[f64], n: usize, m: usize, first: f64, out: &mut [f64])
    requires over_ticks { OverTicks n m series.now }
    requires spread { Spread n m series.now m «first» out.old }
    ensures { Writing (length series.now) (double_line n m (line series.now))
        out.old out.new }
{
    let mut even = first;
    let mut odd = first;
    let mut last = 0.0;
    let bars = series.len();
    for k in 0..(bars - m) / 2 {
        let i = m + 2 * k;
        let one = change_at(series, n, m, i);
        let two = change_at(series, n, m, i + 1);
        even = even + (last + one);
        odd = odd + (one + two);
        last = two;
        out[i] = rounding::sign_of_number(even);
        out[i + 1] = rounding::sign_of_number(odd);
    }
    if (bars - m) % 2 == 1 {
        out[bars - 1] = rounding::sign_of_number(odd + change_at(series, n, m, bars - 1));
    }
}

// Writes each bar's position of whole ticks. The sign of n * m times the short average less the long one decides, a
// whole number that is exact however it is summed.
pub fn write_double_of_ticks(series: &[f64], n: usize, m: usize, out: &mut [f64])
    requires { TickRoom n m series.now (length out.old) }
    ensures { Writing (length series.now) (double_line n m (line series.now))
        out.old out.new }
{
    cells::fill_lead(out, m - 1, series.len(), 0.0);
    let first = first_spread(series, n, m);
    out[m - 1] = rounding::sign_of_number(first);
    slide_spreads(series, n, m, first, out);
}

// Whether a call has cells and its prices are whole ticks: both windows are full, in order and not too long. Where
// prices have fractions the first 16 mostly show it.
pub fn has_tick_cells(series: &[f64], n: usize, m: usize, out: usize) -> bool
    ensures { result ≡ tick_cells series.now n m out }
{
    let some = series.len().min(16);
    let fits = (n > 0) & (n < m) & checks::window_fits(series.len(), m, out);
    fits && values::series::all_ticks(&series[..some]) && values::series::all_ticks(&series[some..])
}

// The answer of `double_sma_positions`. That of the ranges differs in its first test and its definition: one function
// for both is no plainer.
pub fn answer_double(series: &[f64], n: usize, m: usize, out: usize) -> Answer
    ensures { result ≡ double_answer series.now n m out }
{
    let bars = series.len();
    checks::check(series, out)?;
    let order = checks::unless_refused(n < m, Refusal::WindowsOutOfOrder, Ok(bars));
    checks::check_windows(bars, &[n, m], order)
}
