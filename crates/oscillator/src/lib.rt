// The ultimate oscillator: buying pressure over true range in three windows.
#![tactic(auto)]

mod bar;
mod periods;
mod ticks;

ghost use Rattle.std.specs.Prelude.{◌≡◌, ◌*◌, ◌<◌, ◌≤◌, length};
ghost use Rattle.cells.specs.Line.{line, minus_zero};
ghost use Rattle.cells.specs.Written.{Writing};
ghost use Rattle.cells.specs.inner.Touched.{Touched};
ghost use Rattle.windows.specs.inner.Windows.{Windows};
ghost use Rattle.windows.specs.inner.Lanes.{LanesOf};
ghost use Rattle.oscillator.specs.Oscillator.{
  pressures,
  share,
  weighed_shares,
  oscillator_line,
  oscillator_answer,
  OscillatorCall,
};
ghost use Rattle.oscillator.specs.inner.Begun.{Windows₃, Begun, afresh};
ghost use Rattle.oscillator.specs.inner.Rows.{Ready, Whole₃, TwoRows, Reached};
ghost use Rattle.window_means.specs.inner.Row.{row_at};

use calls::Answer;
use periods::Periods;

// Writes the buying pressure of every bar.
fn write_pressures(low: &[f64], close: &[f64], first: Option<f64>, out: &mut [f64])
    requires { (length low.now ≡ length close.now) × (length close.now ≤ length out.old) }
    ensures { Writing (length close.now) (pressures first (line low.now)
        (line close.now)) out.old out.new }
{
    for i in 0..close.len() {
        out[i] = bar::pressure_of(
            low[i],
            close[i],
            true_range::close_before(first, close, 1, i),
        );
    }
}

// The two rows are no struct: contracts would name its fields by longer paths, as `rows.entry.pressures.now`.

// The shares of one window at the N bars from i on.
fn shares_side_by_side<const N: usize>(
    pressures: &[f64],
    ranges: &[f64],
    n: usize,
    i: usize,
) -> [f64; N]
    requires { Windows n i N (length pressures.now) × (length ranges.now ≡ length pressures.now) }
    ensures { LanesOf N (share minus_zero n (line pressures.now) (line ranges.now)) i result }
{
    let mut shares: [f64; N] = windows::sums_side_by_side(pressures, n, i);
    let under: [f64; N] = windows::sums_side_by_side(ranges, n, i);
    for lane in 0..N {
        shares[lane] = bar::ratio_of(shares[lane], under[lane]);
    }
    shares
}

// The cells of the N bars from i on.
fn cells_side_by_side<const N: usize>(
    pressures: &[f64],
    ranges: &[f64],
    periods: Periods,
    i: usize,
) -> [f64; N]
    requires { Whole₃ periods pressures.now ranges.now i N }
    ensures { LanesOf N (afresh periods pressures.now ranges.now) i result }
{
    let mut cells: [f64; N] = shares_side_by_side(pressures, ranges, periods.short, i);
    let medium_shares: [f64; N] = shares_side_by_side(pressures, ranges, periods.medium, i);
    let long_shares: [f64; N] = shares_side_by_side(pressures, ranges, periods.long, i);
    for lane in 0..N {
        cells[lane] = bar::weigh(cells[lane], medium_shares[lane], long_shares[lane]);
    }
    cells
}

// Writes the cells from bar `from` on, N bars side by side, and gives the bar where fewer than N are left.
fn write_side_by_side<const N: usize>(
    pressures: &[f64],
    ranges: &[f64],
    periods: Periods,
    from: usize,
    out: &mut [f64],
) -> usize
    requires some { 0 < N }
    requires begun { Begun periods pressures.now ranges.now from out.old }
    ensures { Reached N periods pressures.now ranges.now from result
        out.old out.new }
{
    let mut i = from;
    // `while`: the bar where it stops is given.
    while pressures.len() - i >= N {
        let lanes: [f64; N] = cells_side_by_side(pressures, ranges, periods, i);
        window_means::store(out, i, lanes);
        i += N;
    }
    i
}

// Writes the cells from bar `from` to the last, each window summed afresh.
fn cells_afresh(pressures: &[f64], ranges: &[f64], periods: Periods, from: usize, out: &mut [f64])
    requires { Begun periods pressures.now ranges.now from out.old }
    ensures { Writing (length pressures.now)
        (afresh periods pressures.now ranges.now) out.old
        out.new }
{
    let few = write_side_by_side::<16>(pressures, ranges, periods, from, out);
    write_side_by_side::<1>(pressures, ranges, periods, few, out);
}

// Writes the cells from bar `from` to the last: by running sums where both rows are whole ticks and a window is long.
fn cells_from(pressures: &[f64], ranges: &[f64], periods: Periods, from: usize, out: &mut [f64])
    requires { Begun periods pressures.now ranges.now from out.old }
    ensures { Writing (length pressures.now)
        (afresh periods pressures.now ranges.now) out.old
        out.new }
{
    if from < pressures.len()
        && window_means::are_long_ticks(pressures, from)
        && window_means::are_long_ticks(ranges, from)
    {
        ticks::cells_of_ticks(pressures, ranges, periods, from, out);
    } else {
        cells_afresh(pressures, ranges, periods, from, out);
    }
}

// Writes the cells of every bar from a row of pressures and one of ranges.
fn write_shares(pressures: &[f64], ranges: &[f64], periods: Periods, out: &mut [f64])
    requires { Windows₃ periods pressures.now ranges.now
        × (length pressures.now ≤ length out.old) }
    ensures { Writing (length pressures.now)
        (afresh periods pressures.now ranges.now) out.old
        out.new }
{
    let first = cells::fill_nan(out, periods.longest() - 1, pressures.len());
    cells_from(pressures, ranges, periods, first, out);
}

// The same where the two rows of `bars` cells stand one after the other.
fn write_from_rows(rows: &[f64], bars: usize, periods: Periods, out: &mut [f64])
    requires { TwoRows periods bars (length rows.now) (length out.old) }
    ensures { Writing bars (weighed_shares minus_zero periods.short periods.medium periods.long
        (line rows.now) (row_at bars rows.now)) out.old out.new }
{
    let end = bars + bars;
    write_shares(&rows[..bars], &rows[bars..end], periods, out);
}

// Writes the cells of every bar. The first two rows of `work` are used.
fn write_oscillator(
    high: &[f64],
    low: &[f64],
    close: &[f64],
    short: usize,
    medium: usize,
    long: usize,
    first: Option<f64>,
    out: &mut [f64],
    work: &mut [f64],
)
    requires { Ready high.now low.now close.now first short medium long (length out.old)
        (length work.old) }
    ensures { Writing (length high.now) (oscillator_line short medium long first
        (line high.now) (line low.now) (line close.now)) out.old
        out.new
        × Touched (2 * length high.now) work.old work.new }
{
    let bars = high.len();
    write_pressures(low, close, first, work);
    true_range::write_ranges(high, low, close, 1, first, &mut work[bars..]);
    let periods = Periods {
        short,
        medium,
        long,
    };
    write_from_rows(work, bars, periods, out);
}

// The answer of a call with three windows.
fn answer_oscillator(
    high: &[f64],
    low: &[f64],
    close: &[f64],
    short: usize,
    medium: usize,
    long: usize,
    first: Option<f64>,
    out: usize,
    work: usize,
) -> Answer
    ensures { result ≡ oscillator_answer high.now low.now close.now short medium
        long first out work }
{
    let bars = high.len();
    checks::check_three_with_work(high, low, close, out, work)?;
    true_range::check_close(first, Ok(bars))?;
    checks::check_windows(bars, &[short, medium, long], Ok(bars))
}

// The ultimate oscillator: see `oscillator_line`.
pub fn ultimate_oscillator(
    high: &[f64],
    low: &[f64],
    close: &[f64],
    short_period: usize,
    med_period: usize,
    long_period: usize,
    first: Option<f64>,
    out: &mut [f64],
    work: &mut [f64],
) -> Answer
    ensures { OscillatorCall high.now low.now close.now short_period
        med_period long_period first out.old work.old result out.new
        work.new }
{
    let due = answer_oscillator(
        high,
        low,
        close,
        short_period,
        med_period,
        long_period,
        first,
        out.len(),
        work.len(),
    );
    if checks::cells_due(due, high.len(), work) {
        write_oscillator(
            high,
            low,
            close,
            short_period,
            med_period,
            long_period,
            first,
            out,
            work,
        );
        cells::clear(work, 8 * high.len());
    }
    due
}
