// Bands about the ultimate smoother: the smoothed close, and beside it the smoothed deviation of the close.
#![tactic(auto)]

ghost use Rattle.bands.specs.inner.Deviations.{DeviationsBefore, MoreDeviations, Spreading};
ghost use Rattle.std.specs.Prelude.{◌≡◌, ◌-◌, ◌<◌, ◌≤◌, length};
ghost use Rattle.limits.specs.Limits.{longest_period};
ghost use Rattle.cells.specs.Line.{line, plus_zero};
ghost use Rattle.cells.specs.Written.{Writing};
ghost use Rattle.cells.specs.inner.Touched.{Touched};
ghost use Rattle.deviations.specs.Deviation.{deviation};
ghost use Rattle.outer_lines.specs.inner.Lined.{Lined};
ghost use Rattle.bands.specs.Bands.{bands_deviation, bands_middle, bands_width, bands_upper, bands_lower};
ghost use Rattle.bands.specs.Bands.{bands_answer, UltimateBandsCall};
ghost use Rattle.bands.specs.inner.Stages.{BandsRoom};

use calls::Answer;

// Writes the deviations of a few bars from bar i on, and gives how many they are.
pub fn write_some_deviations(close: &[f64], n: usize, i: usize, out: &mut [f64]) -> usize
    requires { DeviationsBefore n close.now i out.old }
    ensures { MoreDeviations n close.now i result out.old out.new }
{
    let mut middles = [0.0; 8];
    let mut variances = [0.0; 8];
    let count = deviations::write_spreads(close, n, n - 1, i, &mut middles, &mut variances);
    rounding_root::write_roots(&variances, count, &mut out[i..]);
    count
}

// Writes the deviation of the last n closes, over n - 1, of every bar.
fn write_deviations(close: &[f64], n: usize, out: &mut [f64])
    requires { (1 < n) × Spreading n close.now (length out.old) }
    ensures { Writing (length close.now) (deviation plus_zero (n - 1) n (line close.now))
        out.old out.new }
{
    let mut i = cells::fill_nan(out, n - 1, close.len());
    // A turn writes eight bars, or one where fewer are left: no range takes such steps.
    while i < close.len() {
        i += write_some_deviations(close, n, i, out);
    }
}

// The same of any period: of one close it is 0.0.
fn write_spread(close: &[f64], n: usize, out: &mut [f64])
    requires { Spreading n close.now (length out.old) }
    ensures { Writing (length close.now) (bands_deviation n (line close.now))
        out.old out.new }
{
    if n > 1 {
        write_deviations(close, n, out);
    } else {
        cells::clear(out, close.len());
    }
}

// Writes the width of the bands at every bar to `widths`. The deviations are left in `spreads`.
fn write_each_width(close: &[f64], n: usize, m: usize, widths: &mut [f64], spreads: &mut [f64])
    requires spreading { Spreading n close.now (length spreads.old) }
    requires m_le_longest_period { (m ≤ longest_period) × (length close.now ≤ length widths.old) }
    ensures { Writing (length close.now) (bands_width n m (line close.now))
        widths.old widths.new
        × Touched (length close.now) spreads.old spreads.new }
{
    let bars = close.len();
    write_spread(close, n, spreads);
    smoother::write_smooth(&spreads[..bars], m, widths);
}

// The same from period 4 on, where the deviation of bar 2 is NaN, and so is every width from bar 4 on.
fn write_first_widths(close: &[f64], n: usize, m: usize, widths: &mut [f64], spreads: &mut [f64])
    requires le_n { 4 ≤ n }
    requires spreading { Spreading n close.now (length spreads.old) }
    requires m_le_longest_period { (m ≤ longest_period) × (length close.now ≤ length widths.old) }
    ensures { Writing (length close.now) (bands_width n m (line close.now))
        widths.old widths.new
        × Touched (length close.now) spreads.old spreads.new }
{
    let bars = close.len();
    let some = bars.min(4);
    write_each_width(&close[..some], n, m, widths, spreads);
    cells::fill(&mut widths[some..], bars - some, f64::NAN);
}

// The same of any period.
fn write_widths(close: &[f64], n: usize, m: usize, widths: &mut [f64], spreads: &mut [f64])
    requires spreading { Spreading n close.now (length spreads.old) }
    requires m_le_longest_period { (m ≤ longest_period) × (length close.now ≤ length widths.old) }
    ensures { Writing (length close.now) (bands_width n m (line close.now))
        widths.old widths.new
        × Touched (length close.now) spreads.old spreads.new }
{
    if n < 4 {
        write_each_width(close, n, m, widths, spreads);
    } else {
        write_first_widths(close, n, m, widths, spreads);
    }
}

// Writes the three lines. From period 5 on the outer lines are NaN throughout: see `nan_bands`.
fn write_bands(
    close: &[f64],
    n: usize,
    k: f64,
    m: usize,
    middle: &mut [f64],
    upper: &mut [f64],
    lower: &mut [f64],
)
    requires { BandsRoom n m close.now (length middle.old) (length upper.old) (length lower.old) }
    ensures { Lined (length close.now) (bands_middle n (line close.now))
        (bands_upper n k m (line close.now)) (bands_lower n k m (line close.now))
        middle.old upper.old lower.old
        middle.new upper.new lower.new }
{
    let bars = close.len();
    smoother::write_smooth(close, n, middle);
    if n < 5 {
        write_widths(close, n, m, upper, lower);
        outer_lines::write_outer_lines(middle, k, bars, upper, lower);
    } else {
        outer_lines::fill_outer_lines(bars, upper, lower);
    }
}

// The answer of a call: refusal 6 for k comes before those of the periods, and both are smoother periods.
fn answer_bands(
    close: &[f64],
    n: usize,
    k: f64,
    m: usize,
    middle: usize,
    upper: usize,
    lower: usize,
    work: usize,
) -> Answer
    ensures { result ≡ bands_answer close.now n k m middle upper lower work }
{
    let bars = close.len();
    checks::check_bands(close, middle, upper, lower, work)?;
    let whole = checks::empty_if(bars < n, Ok(bars));
    checks::check_parameters(bars, &[k], &[], &[n, m], whole)
}

// The ultimate bands: see `bands_middle`, `bands_upper` and `bands_lower`.
pub fn ultimate_bands(
    close: &[f64],
    period: usize,
    std_multiplier: f64,
    smooth_period: usize,
    middle: &mut [f64],
    upper: &mut [f64],
    lower: &mut [f64],
    work: &mut [f64],
) -> Answer
    ensures { UltimateBandsCall close.now period std_multiplier smooth_period
        middle.old upper.old lower.old work.old result
        middle.new upper.new lower.new work.new }
{
    let bars = close.len();
    let due = answer_bands(
        close,
        period,
        std_multiplier,
        smooth_period,
        middle.len(),
        upper.len(),
        lower.len(),
        work.len(),
    );
    if checks::cells_due(due, bars, work) {
        write_bands(
            close,
            period,
            std_multiplier,
            smooth_period,
            middle,
            upper,
            lower,
        );
        cells::clear(work, 8 * bars);
    }
    due
}
