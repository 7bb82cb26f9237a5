// True range: how its cells are made and written, and the entry point.
#![tactic(auto)]

ghost use Rattle.std.specs.Prelude.{◌≡◌, true, [], ◌<◌, ◌≤◌, length};
ghost use Rattle.cells.specs.Line.{line};
ghost use Rattle.checks.specs.inner.Three.{Three};
ghost use Rattle.true_range.specs.TrueRange.{true_range, true_range_answer, given_before, TrueRangeCall};
ghost use Rattle.true_range.specs.TrueRange.{supplied, accepted_close, close_checked};
ghost use Rattle.true_range.specs.inner.Ranging.{Numbers, back_by, Ranged};

use calls::{Answer, Refusal};

// The true range of a bar, by the close before it, where that is known.
fn range_of(high: f64, low: f64, before: Option<f64>) -> f64
    requires { Numbers high low before }
    ensures { result ≡ true_range high low before }
{
    let Some(close) = before else {
        return high - low;
    };
    let above = rounding::magnitude_of_number(high - close);
    let below = rounding::magnitude_of_number(low - close);
    extremes::larger_of(extremes::larger_of(high - low, above), below)
}

// The close before bar i, if it is known: `first` at bar 0, and later the one that stands `back` bars before it, 0 or
// 1.
pub fn close_before(first: Option<f64>, close: &[f64], back: usize, i: usize) -> Option<f64>
    requires { (i < length close.now) × (back ≤ 1) }
    ensures { result ≡ given_before first (back_by back (line close.now)) i }
{
    if i == 0 {
        return first;
    }
    Some(close[i - back])
}

// Writes the true range of every bar. The close before a bar stands at the bar itself (back 0) or at the bar before
// (back 1), and that before bar 0 is `first`. C lends high, low and close one by one, and contracts name each: a struct
// of the three is no plainer.
pub fn write_ranges(
    high: &[f64],
    low: &[f64],
    close: &[f64],
    back: usize,
    first: Option<f64>,
    out: &mut [f64],
)
    requires { Three high.now low.now close.now (length out.old) [] × (back ≤ 1)
        × (accepted_close first ≡ true) }
    ensures { Ranged high.now low.now
        (given_before first (back_by back (line close.now))) out.old out.new }
{
    for i in 0..high.len() {
        out[i] = range_of(high[i], low[i], close_before(first, close, back, i));
    }
}

// The close before bar 0 of a flag and a number, as C gives it.
pub fn supplied_close(known: usize, close: f64) -> Option<f64>
    ensures { result ≡ supplied known close }
{
    if known == 0 { None } else { Some(close) }
}

// Refusal 5 for the close before bar 0, then what is next.
pub fn check_close(first: Option<f64>, next: Answer) -> Answer
    ensures { result ≡ close_checked first next }
{
    let Some(close) = first else {
        return next;
    };
    let accepted = values::is_accepted(close);
    checks::unless_refused(accepted, Refusal::ValueNotAccepted, next)
}

// The answer of a call: the close before bar 0 is looked at after the series.
fn answer_true_range(
    high: &[f64],
    low: &[f64],
    close_prev: &[f64],
    first: Option<f64>,
    out: usize,
) -> Answer
    ensures { result ≡ true_range_answer high.now low.now close_prev.now first out }
{
    checks::check_three(high, low, close_prev, out)?;
    check_close(first, Ok(high.len()))
}

// True range: see `true_ranges`.
pub fn true_range(
    high: &[f64],
    low: &[f64],
    close_prev: &[f64],
    first: Option<f64>,
    out: &mut [f64],
) -> Answer
    ensures { TrueRangeCall high.now low.now close_prev.now first
        out.old result out.new }
{
    let due = answer_true_range(high, low, close_prev, first, out.len());
    if calls::has_cells(due) {
        write_ranges(high, low, close_prev, 0, first, out);
    }
    due
}
