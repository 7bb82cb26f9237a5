// The checks of a call: the refusals in their order, for one series, two or three, one output or three, with a work
// slice or without.
#![tactic(auto)]

ghost use Rattle.std.specs.Prelude.{◌≡◌, ◌||◌, [], ◌∷◌, ◌*◌, min, ◌<◌, ◌≤◌, eqb, leb, length, Ok};
ghost use Rattle.cells.specs.Line.{line};
ghost use Rattle.values.specs.Accepted.{accepted, tick, all};
ghost use Rattle.calls.specs.Answer.{any_zero, limited, unless_empty, unless, and_then, slices, checked, cleared_of, empty_if, in_order, ranged, windowed, answered, answered_with};
ghost use Rattle.calls.specs.inner.Fits.{window_fits};
ghost use Rattle.calls.specs.declared.Refusal.TheVariants.{WorkTooShort, ValueNotAccepted, LowAboveHigh};
ghost use Rattle.checks.specs.inner.Due.{CellsDue};

use calls::{Answer, Refusal};
use limits::{LONGEST_PERIOD, LONGEST_SERIES, LONGEST_WINDOW};

// Whether none of the numbers is above `limit`.
fn none_above(numbers: &[usize], limit: usize) -> bool
    ensures { result ≡ all (λ n. leb n limit) numbers.now }
{
    numbers.iter().all(|n| *n <= limit)
}

// Whether all lengths are this one.
fn all_of_length(lengths: &[usize], length: usize) -> bool
    ensures { result ≡ all (λ l. eqb l length) lengths.now }
{
    lengths.iter().all(|l| *l == length)
}

// The first refusal by the lengths of the series and of the output; else the length of the first series.
fn check_lengths(series: &[usize], out: usize) -> Answer
    requires { 0 < length series.now }
    ensures { result ≡ slices series.now (out ∷ []) [] }
{
    let bars = series[0];
    if !none_above(series, LONGEST_SERIES) {
        return Err(Refusal::SeriesTooLong);
    }
    if !all_of_length(series, bars) {
        return Err(Refusal::LengthsDiffer);
    }
    if out < bars {
        return Err(Refusal::OutputTooShort);
    }
    Ok(bars)
}

// The refusal of a work slice that is too short for a series.
pub fn check_work(bars: usize, work: usize) -> Answer
    ensures { result ≡ unless (leb (8 * bars) work) WorkTooShort (Ok bars) }
{
    if bars > work / 8 {
        Err(Refusal::WorkTooShort)
    } else {
        Ok(bars)
    }
}

// The refusal of a value that is not accepted; else the series' length.
pub fn check_values(series: &[f64]) -> Answer
    ensures { result ≡ unless (all accepted series.now) ValueNotAccepted (Ok (length series.now)) }
{
    if values::series::all_accepted(series) {
        Ok(series.len())
    } else {
        Err(Refusal::ValueNotAccepted)
    }
}

// The same for whole ticks. One function for both would take the test and its contract: no plainer.
fn check_tick_values(series: &[f64]) -> Answer
    ensures { result ≡ unless (all tick series.now) ValueNotAccepted (Ok (length series.now)) }
{
    if values::series::all_ticks(series) {
        Ok(series.len())
    } else {
        Err(Refusal::ValueNotAccepted)
    }
}

// The first refusal of a call with one series, its output and no work slice, before its parameters; else the series'
// length.
pub fn check(series: &[f64], out: usize) -> Answer
    ensures { result ≡ checked accepted (series.now ∷ []) (out ∷ []) [] }
{
    check_lengths(&[series.len()], out)?;
    check_values(series)
}

// The same with a work slice.
pub fn check_with_work(series: &[f64], out: usize, work: usize) -> Answer
    ensures { result ≡ checked accepted (series.now ∷ []) (out ∷ []) (work ∷ []) }
{
    let bars = series.len();
    check_lengths(&[bars], out)?;
    check_work(bars, work)?;
    check_values(series)
}

// The same for whole ticks and no work slice.
pub fn check_ticks(series: &[f64], out: usize) -> Answer
    ensures { result ≡ checked tick (series.now ∷ []) (out ∷ []) [] }
{
    check_lengths(&[series.len()], out)?;
    check_tick_values(series)
}

// Refused for this reason, unless the test holds.
pub fn unless_refused(test: bool, reason: Refusal, next: Answer) -> Answer
    ensures { result ≡ unless test reason next }
{
    if test { next } else { Err(reason) }
}

// The empty answer, where the test holds.
pub fn empty_if(test: bool, next: Answer) -> Answer
    ensures { result ≡ empty_if test next }
{
    if test { Ok(0) } else { next }
}

// Whether there are no bars, or a window or a period of none.
fn is_empty(bars: usize, windows: &[usize], periods: &[usize]) -> bool
    ensures { result ≡ any_zero periods.now || any_zero (bars ∷ windows.now) }
{
    periods.contains(&0) || bars == 0 || windows.contains(&0)
}

// Refusals 6 and 7 and the empty answer, by f64 parameters, integer windows and smoother periods; then what is next.
pub fn check_parameters(
    bars: usize,
    numbers: &[f64],
    windows: &[usize],
    periods: &[usize],
    next: Answer,
) -> Answer
    ensures { result ≡ limited numbers.now windows.now periods.now
        (unless_empty bars windows.now periods.now next) }
{
    if !values::all_finite(numbers) {
        return Err(Refusal::ParameterNotFinite);
    }
    if !none_above(periods, LONGEST_PERIOD) {
        return Err(Refusal::WindowTooLong);
    }
    if !none_above(windows, LONGEST_WINDOW) {
        return Err(Refusal::WindowTooLong);
    }
    if is_empty(bars, windows, periods) {
        return Ok(0);
    }
    next
}

// The same for integer windows alone.
pub fn check_windows(bars: usize, windows: &[usize], next: Answer) -> Answer
    ensures { result ≡ windowed bars windows.now next }
{
    check_parameters(bars, &[], windows, &[], next)
}

// Whether a window is whole and all lengths are in order, so that only the values are left to be refused.
pub fn window_fits(bars: usize, n: usize, out: usize) -> bool
    ensures { result ≡ window_fits bars n out }
{
    (n > 0) & (n <= LONGEST_WINDOW) & (n <= bars) & (bars <= LONGEST_SERIES) & (bars <= out)
}

// The answer of a call with one series, one window, its output and no work slice.
pub fn answer_window(series: &[f64], n: usize, out: usize) -> Answer
    ensures { result ≡ answered accepted series.now (n ∷ []) out [] }
{
    let bars = series.len();
    check(series, out)?;
    check_windows(bars, &[n], Ok(bars))
}

// The same with a work slice.
pub fn answer_window_with_work(series: &[f64], n: usize, out: usize, work: usize) -> Answer
    ensures { result ≡ answered accepted series.now (n ∷ []) out (work ∷ []) }
{
    let bars = series.len();
    check_with_work(series, out, work)?;
    check_windows(bars, &[n], Ok(bars))
}

// The answer of a call with one series, f64 parameters, one window, its output and a work slice: refusal 6 for the
// numbers comes after the series' own refusals, and before those of the window.
pub fn answer_numbers_and_window(
    series: &[f64],
    numbers: &[f64],
    n: usize,
    out: usize,
    work: usize,
) -> Answer
    ensures { result ≡ answered_with accepted series.now numbers.now (n ∷ []) out
        (work ∷ []) }
{
    let bars = series.len();
    check_with_work(series, out, work)?;
    check_parameters(bars, numbers, &[n], &[], Ok(bars))
}

// The answer of a call with one series of whole ticks, one window, its output and no work slice.
pub fn answer_tick_window(series: &[f64], n: usize, out: usize) -> Answer
    ensures { result ≡ answered tick series.now (n ∷ []) out [] }
{
    let bars = series.len();
    check_ticks(series, out)?;
    check_windows(bars, &[n], Ok(bars))
}

// Whether no low is above its high, at the bars that both series have.
fn in_order(low: &[f64], high: &[f64]) -> bool
    ensures { result ≡ in_order (line low.now) (line high.now)
        (min (length low.now) (length high.now)) }
{
    let bars = low.len().min(high.len());
    let mut all = true;
    for i in 0..bars {
        all &= low[i] <= high[i];
    }
    all
}

// The refusal of a low above its high; else the length.
fn check_order(low: &[f64], high: &[f64]) -> Answer
    ensures { result ≡ unless (in_order (line low.now) (line high.now)
        (min (length low.now) (length high.now))) LowAboveHigh (Ok (length low.now)) }
{
    if in_order(low, high) {
        Ok(low.len())
    } else {
        Err(Refusal::LowAboveHigh)
    }
}

// The first refusal of a call with a low and a high of whole ticks for each bar, its output and no work slice, before
// its parameters; else the length.
pub fn check_ranges(low: &[f64], high: &[f64], out: usize) -> Answer
    ensures { result ≡ ranged low.now high.now out }
{
    check_lengths(&[low.len(), high.len()], out)?;
    check_tick_values(high)?;
    check_tick_values(low)?;
    check_order(low, high)
}

// The first refusal of a call with three series, one output and no work slice, before its parameters; else the length.
pub fn check_three(first: &[f64], second: &[f64], third: &[f64], out: usize) -> Answer
    ensures { result ≡ checked accepted (first.now ∷ second.now ∷ third.now ∷ [])
        (out ∷ []) [] }
{
    check_lengths(&[first.len(), second.len(), third.len()], out)?;
    check_values(third)?;
    check_values(second)?;
    check_values(first)
}

// The same with a work slice.
pub fn check_three_with_work(
    first: &[f64],
    second: &[f64],
    third: &[f64],
    out: usize,
    work: usize,
) -> Answer
    ensures { result ≡ checked accepted (first.now ∷ second.now ∷ third.now ∷ [])
        (out ∷ []) (work ∷ []) }
{
    check_lengths(&[first.len(), second.len(), third.len()], out)?;
    check_work(first.len(), work)?;
    check_values(third)?;
    check_values(second)?;
    check_values(first)
}

// The shortest of three outputs.
fn shortest(a: usize, b: usize, c: usize) -> usize
    ensures { result ≡ min a (min b c) }
{
    cells::smaller(a, cells::smaller(b, c))
}

// The first refusal of a call with one series, three outputs and a work slice, before its parameters; else the
// series' length.
pub fn check_bands(series: &[f64], middle: usize, upper: usize, lower: usize, work: usize) -> Answer
    ensures { result ≡ checked accepted (series.now ∷ []) (middle ∷ upper ∷ lower ∷ []) (work ∷ []) }
{
    check_with_work(series, shortest(middle, upper, lower), work)
}

// The same with three series.
pub fn check_channel(
    first: &[f64],
    second: &[f64],
    third: &[f64],
    middle: usize,
    upper: usize,
    lower: usize,
    work: usize,
) -> Answer
    ensures { result ≡ checked accepted (first.now ∷ second.now ∷ third.now ∷ [])
        (middle ∷ upper ∷ lower ∷ []) (work ∷ []) }
{
    check_three_with_work(first, second, third, shortest(middle, upper, lower), work)
}

// Whether cells are to be written, by the answer to a call of `bars` bars. It writes nothing but +0.0 to the work
// slice of an answer that has no cells.
pub fn cells_due(due: Answer, bars: usize, work: &mut [f64]) -> bool
    requires { cleared_of due (8 * bars) ≤ length work.old }
    ensures { CellsDue due bars result work.old work.new }
{
    let Ok(count) = due else {
        return false;
    };
    if count > 0 {
        return true;
    }
    cells::clear(work, 8 * bars);
    false
}
