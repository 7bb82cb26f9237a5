// The rule against the relative strength index: how its cells are written.
#![tactic(auto)]

mod bar;
mod held;

ghost use Rattle.std.specs.Prelude.{◌+◌, ◌*◌, ◌<◌, ◌≤◌, length, Float};
ghost use Rattle.limits.specs.Limits.{Window};
ghost use Rattle.cells.specs.Line.{line};
ghost use Rattle.cells.specs.Written.{Writing};
ghost use Rattle.cells.specs.inner.Touched.{Touched};
ghost use Rattle.windows.specs.Window.{mean};
ghost use Rattle.checks.specs.inner.Due.{Priced};
ghost use Rattle.rules_rsi.specs.RsiReverse.{rsi_before, rsi_reverse_line};
ghost use Rattle.rules_rsi.specs.inner.Stages.{Computes, with_parts, Changed, IndexesBefore, MoreIndexes};

// Writes a part of each change in the first row, as `part` gives it, to the row that begins at cell `to`. Its first
// cell is left, since bar 0 has no change.
fn write_parts<F: Fn(f64) -> f64>(work: &mut [f64], to: usize, bars: usize, part: F)
    requires room { (0 < bars) × (bars ≤ to) × (to + bars ≤ length work.old) }
    requires callable { F.IsAlwaysCallable part }
    ensures { (g : Float → Float) → Computes (F.post part) g
        → Writing (to + bars) (with_parts g to work.old) work.old work.new }
{
    for i in 1..bars {
        work[to + i] = part(changes::change_at(work, i));
    }
}

// Writes the means to the first row, and the gains and losses of their changes to the next two.
fn write_changes(series: &[f64], n: usize, work: &mut [f64])
    requires priced { Priced 3 n series.now (length series.now) (length work.old) }
    requires series_nonzero { 0 < length series.now }
    ensures { Changed n series.now work.new
        × Touched (3 * length series.now) work.old work.new }
{
    let bars = series.len();
    window_means::write_means_of_prices(series, n, work);
    write_parts(work, bars, bars, changes::gain_of);
    write_parts(work, 2 * bars, bars, changes::loss_of);
}

// Writes the indexes of the sixteen bars from bar i on, which have n changes each, to the first row.
fn write_sixteen(series: &[f64], n: usize, i: usize, work: &mut [f64])
    requires indexes_before { IndexesBefore n series.now i work.old }
    requires n_bound { (2 * n ≤ i) × (i + 16 ≤ length series.now) }
    ensures { Writing (i + 16) (rsi_before n (mean n (line series.now))) work.old
        work.new }
{
    let bars = series.len();
    let up: [f64; 16] = windows::sums_side_by_side(work, n, bars + i - 1);
    let down: [f64; 16] = windows::sums_side_by_side(work, n, 2 * bars + i - 1);
    let count = n as f64;
    for lane in 0..16 {
        work[i + lane] = bar::index_by(up[lane], down[lane], count);
    }
}

// Writes the indexes of a few bars from bar i on to the first row, and gives how many they are.
fn write_some(series: &[f64], n: usize, i: usize, work: &mut [f64]) -> usize
    requires { IndexesBefore n series.now i work.old }
    ensures { MoreIndexes n series.now i result work.old work.new }
{
    if 2 * n <= i && i + 16 <= series.len() {
        write_sixteen(series, n, i, work);
        16
    } else {
        work[i] = bar::index_at(series, n, i, work);
        1
    }
}

// Writes each bar's index to the first row.
fn write_indexes(series: &[f64], n: usize, work: &mut [f64])
    requires { Window n × Changed n series.now work.old }
    ensures { Writing (length series.now) (rsi_before n (mean n (line series.now)))
        work.old work.new }
{
    let mut i = 0;
    // `while`: a turn writes one bar or sixteen.
    while i < series.len() {
        i += write_some(series, n, i, work);
    }
}

// Writes each bar's position. The first three rows of `work` are used.
pub fn write_rsi_reverse(
    series: &[f64],
    n: usize,
    upper: f64,
    lower: f64,
    exit: f64,
    out: &mut [i32],
    work: &mut [f64],
)
    requires priced { Priced 3 n series.now (length out.old) (length work.old) }
    requires series_nonzero { 0 < length series.now }
    ensures { Writing (length series.now)
        (rsi_reverse_line n upper lower exit (line series.now)) out.old out.new
        × Touched (3 * length series.now) work.old work.new }
{
    let bars = series.len();
    write_changes(series, n, work);
    write_indexes(series, n, work);
    held::write_turned(&work[..bars], upper, lower, exit, out);
}
