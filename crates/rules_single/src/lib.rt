// The one-average rule: one bar of it, and how its cells are written.
#![tactic(auto)]

ghost use Rattle.std.specs.Prelude.{◌≡◌, length, true, ◌+◌, ◌*◌, ◌<◌, ◌≤◌};
ghost use Rattle.cells.specs.Line.{line};
ghost use Rattle.cells.specs.Written.{Writing};
ghost use Rattle.windows.specs.inner.Windows.{WindowRoom};
ghost use Rattle.rules_single.specs.Single.{against_mean, single_line};
ghost use Rattle.rules_single.specs.inner.Positions.{positions};
ghost use Rattle.rules_single.specs.inner.Tie.{tie};
ghost use Rattle.values.specs.Accepted.{tick, all};
ghost use Rattle.windows.specs.Window.{mean};
ghost use Rattle.rules_single.specs.inner.Ticks.{TickRows};
ghost use Rattle.margins.specs.inner.Decided.{Decided};
ghost use Rattle.cells.specs.inner.Touched.{Touched};
ghost use Rattle.checks.specs.inner.Due.{Priced};

// The sign of a price less its average, 0 where that average is 0.0. The sign is taken first, so that a loop takes
// several bars at a time.
pub fn against_mean(price: f64, average: f64) -> f64
    ensures { result ≡ against_mean price average }
{
    let side = rounding::sign(price - average);
    if average == 0.0 { 0.0 } else { side }
}

// Writes each bar's position over the average that stands in its cell.
pub fn write_against_means(series: &[f64], n: usize, out: &mut [f64])
    requires { WindowRoom n (length series.now) (length out.old) }
    ensures { Writing (length series.now)
        (positions n (line series.now) (line out.old)) out.old out.new }
{
    let first = cells::fill_lead(out, 2 * n - 2, series.len(), 0.0);
    for i in first..series.len() {
        out[i] = against_mean(series[i], out[i]);
    }
}

// Whether n * n * price is the sum of the last n window sums, or that sum is 0.
pub fn is_tie(scaled: f64, total: f64) -> bool
    ensures { result ≡ tie scaled total }
{
    scaled == total || total == 0.0
}

// The position of bar i. The rows of `work` are the means, which decide a tie, and the sums of the last n window sums.
fn tick_position(series: &[f64], work: &[f64], n: usize, i: usize) -> f64
    requires tick_rows { TickRows n series.now work.now }
    requires n_bound { (2 * n ≤ i + 2) × (i < length series.now) }
    ensures { result ≡ single_line n (line series.now) i }
{
    let scaled = series[i] * ((n * n) as f64);
    let total = work[series.len() + i];
    if is_tie(scaled, total) {
        against_mean(series[i], windows::mean_at(work, n, i))
    } else if scaled < total {
        -1.0
    } else {
        1.0
    }
}

// Writes each bar's position from those rows.
fn write_tick_positions(series: &[f64], work: &[f64], n: usize, out: &mut [f64])
    requires tick_rows { TickRows n series.now work.now }
    requires series_in_bounds { length series.now ≤ length out.old }
    ensures { Writing (length series.now) (single_line n (line series.now))
        out.old out.new }
{
    let first = cells::fill_lead(out, 2 * n - 2, series.len(), 0.0);
    for i in first..series.len() {
        out[i] = tick_position(series, work, n, i);
    }
}

// Writes each bar's position of whole ticks. Running sums are exact, and decide all but ties. Two rows of `work` are
// used.
fn write_single_of_ticks(series: &[f64], n: usize, out: &mut [f64], work: &mut [f64])
    requires priced { Priced 2 n series.now (length out.old) (length work.old) }
    requires series_value { all tick series.now ≡ true }
    ensures { Writing (length series.now) (single_line n (line series.now))
        out.old out.new
        × Touched (2 * length series.now) work.old work.new }
{
    let bars = series.len();
    windows::write_sums(series, n, out);
    window_means::write_means_of_ticks(series, n, work);
    windows::write_sums(&out[..bars], n, &mut work[bars..]);
    write_tick_positions(series, work, n, out);
}

// The shortest window that running sums are tried with: there a series in doubt still takes less time than in pure.rs.
const SHORTEST_BY_MARGINS: usize = 40;

// Writes each bar's position by running sums, if the window is long enough for that to pay and they decide every bar,
// and says whether it did. One row of `work` is used.
fn write_single_by_margins(series: &[f64], n: usize, out: &mut [f64], work: &mut [f64]) -> bool
    requires { Priced 2 n series.now (length out.old) (length work.old) }
    ensures { Decided result (single_line n (line series.now)) (length series.now)
        out.old out.new work.old work.new }
{
    if n < SHORTEST_BY_MARGINS {
        return false;
    }
    let bars = series.len();
    windows::sliding::write_running_means(series, n, work);
    windows::sliding::write_running_means(&work[..bars], n, out);
    let far = margins::all_far(series, out, 2 * n - 2, margins::margin(series));
    if far {
        write_against_means(series, n, out);
    }
    far
}

// Writes each bar's position by the means of the means. One row of `work` is used.
fn write_single_of_means(series: &[f64], n: usize, out: &mut [f64], work: &mut [f64])
    requires { Priced 2 n series.now (length out.old) (length work.old) }
    ensures { Writing (length series.now) (single_line n (line series.now))
        out.old out.new
        × Touched (2 * length series.now) work.old work.new }
{
    let bars = series.len();
    window_means::write_means(series, n, work);
    window_means::write_means(&work[..bars], n, out);
    write_against_means(series, n, out);
}

// Writes each bar's position. The first two rows of `work` are used.
pub fn write_single(series: &[f64], n: usize, out: &mut [f64], work: &mut [f64])
    requires { Priced 2 n series.now (length out.old) (length work.old) }
    ensures { Writing (length series.now) (single_line n (line series.now))
        out.old out.new
        × Touched (2 * length series.now) work.old work.new }
{
    if window_means::are_long_ticks(series, n) {
        write_single_of_ticks(series, n, out, work);
    } else if !write_single_by_margins(series, n, out, work) {
        write_single_of_means(series, n, out, work);
    }
}
