// The middle rule: one bar of it, and how its cells are written.
#![tactic(auto)]

ghost use Rattle.std.specs.Prelude.{◌≡◌, ◌+◌, ◌*◌, ◌≤◌, length};
ghost use Rattle.cells.specs.Line.{line};
ghost use Rattle.cells.specs.Written.{Writing};
ghost use Rattle.rules_middle.specs.Middle.{against_middle, mid_line};
ghost use Rattle.rules_middle.specs.inner.Positions.{positions};
ghost use Rattle.margins.specs.inner.Margin.{far_from_middle, AllFar};
ghost use Rattle.windows.specs.inner.Windows.{WindowRoom};
ghost use Rattle.cells.specs.inner.Touched.{Touched};
ghost use Rattle.margins.specs.inner.Decided.{Decided};
ghost use Rattle.window_means.specs.inner.Ticks.{long_ticks};
ghost use Rattle.checks.specs.inner.Due.{Priced};

// The sign of a mean less half of highest plus lowest, 0 if either is 0. The sign is taken first, so that a loop takes
// several bars at a time.
fn against_middle(average: f64, high: f64, low: f64) -> f64
    ensures { result ≡ against_middle average high low }
{
    let side = rounding::sign(average - (high + low) / 2.0);
    if high == 0.0 || low == 0.0 { 0.0 } else { side }
}

// Writes each bar's position over the mean that stands in its cell. The rows of `work` are the highest means and the
// lowest.
pub fn write_against_middles(bars: usize, n: usize, out: &mut [f64], work: &[f64])
    requires { WindowRoom n bars (length out.old) × (2 * bars ≤ length work.now) }
    ensures { Writing bars (positions n bars (line out.old) (line work.now))
        out.old out.new }
{
    let first = cells::fill_lead(out, 2 * n - 2, bars, 0.0);
    for i in first..bars {
        out[i] = against_middle(out[i], work[i], work[bars + i]);
    }
}

// Whether a mean and the middle of highest and lowest, and each of these and 0, are farther apart than d.
fn is_far(d: f64, average: f64, high: f64, low: f64) -> bool
    ensures { result ≡ far_from_middle d average high low }
{
    d < rounding::magnitude(average - (high + low) / 2.0)
        && d < rounding::magnitude(high)
        && d < rounding::magnitude(low)
}

// Whether that holds of every bar from `first` on. All are looked at, so that the loop takes several at a time.
// It is the loop of `margins::all_far` over other cells: a closure for the test, with its contract, is no plainer.
pub fn all_far(bars: usize, means: &[f64], rows: &[f64], first: usize, d: f64) -> bool
    requires { (bars ≤ length means.now) × (2 * bars ≤ length rows.now) }
    ensures { AllFar result first
        (λ i. far_from_middle d (line means.now i) (line rows.now i)
        (line rows.now (bars + i))) bars }
{
    let mut far = true;
    for i in first..bars {
        far &= is_far(d, means[i], rows[i], rows[bars + i]);
    }
    far
}

// The shortest window that running sums are tried with: there a series in doubt still takes less time than in pure.rs.
const SHORTEST_BY_MARGINS: usize = 40;

// They are tried on a series of at most this many windows: in a longer one some bar mostly has a tie.
const MOST_WINDOWS: usize = 512;

// Writes each bar's position by running sums, if that pays and they decide every bar, and says whether it did. It pays
// where the window is long, and the bars are so few that a tie is unlikely. The first two rows of `work` are used.
fn write_mid_by_margins(series: &[f64], n: usize, out: &mut [f64], work: &mut [f64]) -> bool
    requires { Priced 2 n series.now (length out.old) (length work.old) }
    ensures { Decided result (mid_line n (line series.now)) (length series.now)
        out.old out.new work.old work.new }
{
    let bars = series.len();
    if n < SHORTEST_BY_MARGINS || MOST_WINDOWS * n < bars {
        return false;
    }
    windows::sliding::write_running_means(series, n, out);
    extremes::ranges::write_ranges(&out[..bars], n, work);
    let far = all_far(bars, out, work, 2 * n - 2, margins::margin(series));
    if far {
        write_against_middles(bars, n, out, work);
    }
    far
}

// Writes each bar's position by means made afresh, or of whole ticks. The first two rows of `work` are used.
fn write_mid_of_means(series: &[f64], n: usize, ticks: bool, out: &mut [f64], work: &mut [f64])
    requires priced { Priced 2 n series.now (length out.old) (length work.old) }
    requires ticks_value { ticks ≡ long_ticks n series.now }
    ensures { Writing (length series.now) (mid_line n (line series.now))
        out.old out.new
        × Touched (2 * length series.now) work.old work.new }
{
    window_means::ranges::write_mean_ranges_by(series, n, n, ticks, out, work);
    write_against_middles(series.len(), n, out, work);
}

// Writes each bar's position. The first two rows of `work` are used.
pub fn write_mid(series: &[f64], n: usize, out: &mut [f64], work: &mut [f64])
    requires { Priced 2 n series.now (length out.old) (length work.old) }
    ensures { Writing (length series.now) (mid_line n (line series.now))
        out.old out.new
        × Touched (2 * length series.now) work.old work.new }
{
    let ticks = window_means::are_long_ticks(series, n);
    if ticks || !write_mid_by_margins(series, n, out, work) {
        write_mid_of_means(series, n, ticks, out, work);
    }
}
