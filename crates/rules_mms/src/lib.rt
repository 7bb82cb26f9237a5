// The min-max rule: how its answer is found and its cells are written.
#![tactic(auto)]

ghost use Rattle.std.specs.Prelude.{◌≡◌, ◌*◌, ◌≤◌, length};
ghost use Rattle.limits.specs.Limits.{Window};
ghost use Rattle.cells.specs.Line.{line};
ghost use Rattle.cells.specs.Written.{Writing};
ghost use Rattle.cells.specs.inner.Touched.{Touched};
ghost use Rattle.windows.specs.Window.{mean};
ghost use Rattle.window_means.specs.inner.Averaged.{Averaged};
ghost use Rattle.window_means.specs.inner.Ranges.{Ranges};
ghost use Rattle.checks.specs.inner.Due.{Priced};
ghost use Rattle.rules_mms.specs.Mms.{scaled_between, mms_line, mms_answer};

use calls::Answer;

// Where a mean stands between the lowest and the highest, from -1 to 1; 0 where their spread's size is at most 1e-10.
fn scaled_between(average: f64, high: f64, low: f64) -> f64
    ensures { result ≡ scaled_between average high low }
{
    let spread = high - low;
    if rounding::magnitude(spread) > 1e-10 {
        (average - low) / spread * 2.0 - 1.0
    } else {
        0.0
    }
}

// Writes each bar's cell over the mean that stands in it.
fn write_scaled(series: &[f64], n: usize, w: usize, out: &mut [f64], work: &[f64])
    requires averaged { Averaged n series.now (mean n (line series.now)) out.old × Window w }
    requires series_in_bounds { (2 * length series.now ≤ length work.now) × Ranges n w series.now work.now work.now }
    ensures { Writing (length series.now) (mms_line n w (line series.now))
        out.old out.new }
{
    let bars = series.len();
    let first = cells::fill_lead(out, n + w - 2, bars, 0.0);
    for i in first..bars {
        out[i] = scaled_between(out[i], work[i], work[bars + i]);
    }
}

// Writes each bar's cell. The first two rows of `work` are used.
pub fn write_mms(series: &[f64], n: usize, w: usize, out: &mut [f64], work: &mut [f64])
    requires priced { Priced 2 n series.now (length out.old) (length work.old) }
    requires window { Window w }
    ensures { Writing (length series.now) (mms_line n w (line series.now))
        out.old out.new
        × Touched (2 * length series.now) work.old work.new }
{
    window_means::ranges::write_mean_ranges(series, n, w, out, work);
    write_scaled(series, n, w, out, work);
}

// The answer of `mms_positions`.
pub fn answer_mms(series: &[f64], n: usize, w: usize, out: usize, work: usize) -> Answer
    ensures { result ≡ mms_answer series.now n w out work }
{
    let bars = series.len();
    checks::check_with_work(series, out, work)?;
    checks::check_windows(bars, &[n, w], Ok(bars))
}
