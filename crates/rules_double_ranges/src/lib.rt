// The two-average rule on prices that are known only within a range: its answer, and how its cells are written.
#![tactic(auto)]

ghost use Rattle.std.specs.Prelude.{◌≡◌, ◌-◌, ◌<◌, ◌≤◌, length};
ghost use Rattle.cells.specs.Line.{line};
ghost use Rattle.cells.specs.Written.{Writing};
ghost use Rattle.limits.specs.Limits.{Window};
ghost use Rattle.rules_double.specs.inner.Ticks.{ticks_of, OverTicks};
ghost use Rattle.rules_double_ranges.specs.Ranges.{picked, ranges_line, ranges_answer};
ghost use Rattle.rules_double_ranges.specs.inner.Stages.{SumsAt, wins, Implies, RangesRoom, OverRanges};

use calls::{Answer, Refusal};

// The answer of `double_sma_ranges`.
pub fn answer_ranges(low: &[f64], high: &[f64], n: usize, m: usize, out: usize) -> Answer
    ensures { result ≡ ranges_answer low.now high.now n m out }
{
    let bars = low.len();
    checks::check_ranges(low, high, out)?;
    let order = checks::unless_refused(n < m, Refusal::WindowsOutOfOrder, Ok(bars));
    checks::check_windows(bars, &[n, m], order)
}

// The sums of a bar: of its last n prices, and of the m - n prices before them.
#[derive(Clone, Copy)]
struct Sums {
    short: f64,
    old: f64,
}

// Those of bar m - 1.
fn first_sums(series: &[f64], n: usize, m: usize) -> Sums
    requires { OverTicks n m series.now }
    ensures { SumsAt n m (ticks_of series.now) (m - 1) result.short result.old }
{
    let short = windows::sum_at(series, n, m - 1);
    let old = windows::sum_at(series, m - n, m - n - 1);
    Sums { short, old }
}

// Those of bar i, from those of the bar before.
fn next_sums(series: &[f64], n: usize, m: usize, i: usize, sums: Sums) -> Sums
    requires over_ticks { OverTicks n m series.now × (m ≤ i) × (i < length series.now) }
    requires sums_at { SumsAt n m (ticks_of series.now) (i - 1) «sums».short «sums».old }
    ensures { SumsAt n m (ticks_of series.now) i result.short result.old }
{
    let leaves = series[i - n];
    let short = sums.short + (series[i] - leaves);
    let old = sums.old + (leaves - series[i - m]);
    Sums { short, old }
}

// Whether the double rule gives +1, from the sum of the last n prices and that of the m - n before them.
fn gives_long(short: f64, old: f64, n: usize, m: usize) -> bool
    requires { Window m × (n < m) }
    ensures { result ≡ wins n m short old }
{
    short * ((m - n) as f64) >= old * (n as f64)
}

// The cell, by what the series in the ranges that is worst for +1 gives, and what the best one does. In numbers, since
// an `if` was tried and is a third slower: it branches at each bar.
fn cell_of(worst: bool, best: bool) -> i32
    requires { Implies «worst» «best» }
    ensures { result ≡ picked «worst» «best» }
{
    3 * (best as i32) - (worst as i32) - 1
}

// The cell of a bar, from the sums of the lows and of the highs.
fn cell_at(low: Sums, high: Sums, n: usize, m: usize) -> i32
    requires window { Window m × (n < m) }
    requires implies { Implies (wins n m «low».short «high».old) (wins n m «high».short «low».old) }
    ensures { result ≡ picked (wins n m «low».short «high».old) (wins n m «high».short «low».old) }
{
    let worst = gives_long(low.short, high.old, n, m);
    let best = gives_long(high.short, low.old, n, m);
    cell_of(worst, best)
}

// Writes the cells from bar m - 1 on.
fn slide_ranges(low: &[f64], high: &[f64], n: usize, m: usize, out: &mut [i32])
    requires { OverRanges n m low.now high.now out.old }
    ensures { Writing (length low.now)
        (ranges_line n m (line low.now) (line high.now)) out.old out.new }
{
    let mut lows = first_sums(low, n, m);
    let mut highs = first_sums(high, n, m);
    out[m - 1] = cell_at(lows, highs, n, m);
    for i in m..low.len() {
        lows = next_sums(low, n, m, i, lows);
        highs = next_sums(high, n, m, i, highs);
        out[i] = cell_at(lows, highs, n, m);
    }
}

// Writes each bar's cell.
pub fn write_ranges(low: &[f64], high: &[f64], n: usize, m: usize, out: &mut [i32])
    requires { RangesRoom n m low.now high.now (length out.old) }
    ensures { Writing (length low.now)
        (ranges_line n m (line low.now) (line high.now)) out.old out.new }
{
    let first = rules_held::fill_flat(out, m - 1, low.len());
    if first < low.len() {
        slide_ranges(low, high, n, m, out);
    }
}
