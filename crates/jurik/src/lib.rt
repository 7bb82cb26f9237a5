// The volatility of a series: the sizes of its changes, smoothed three times.
#![tactic(auto)]

mod bar;
mod passes;

ghost use Rattle.std.specs.Prelude.{◌≡◌, true, ◌<◌, ◌≤◌, length};
ghost use Rattle.cells.specs.Line.{line};
ghost use Rattle.cells.specs.Written.{Writing};
ghost use Rattle.jurik.specs.Jurik.{is_number, price_change, jv_of, jv, jurik_line, JurikCall};
ghost use Rattle.jurik.specs.inner.Passes.{differs, jv_at, Ready, Differing, JvWritten, BothAverage};

use bar::Taken;
use calls::Answer;

// The size of the change of bar i.
fn price_change_at(close: &[f64], i: usize) -> f64
    requires { (0 < i) × (i < length close.now) }
    ensures { result ≡ price_change (line close.now) i }
{
    rounding::magnitude(changes::change_at(close, i))
}

// Writes the size of each change, NaN at bar 0.
fn write_price_changes(close: &[f64], out: &mut [f64])
    requires { length close.now ≤ length out.old }
    ensures { Writing (length close.now) (price_change (line close.now)) out.old
        out.new }
{
    let first = cells::fill_nan(out, 1, close.len());
    for i in first..close.len() {
        out[i] = price_change_at(close, i);
    }
}

// (x + (x - last) * 0.5) * power, and 0.0 where one of the two is no number.
fn jv_of(power: f64, last: f64, x: f64) -> f64
    ensures { result ≡ jv_of power last x }
{
    if !x.is_nan() & !last.is_nan() {
        (x + (x - last) * 0.5) * power
    } else {
        0.0
    }
}

// That cell from bar 2 on, and 0.0 before.
fn jv_at(i: usize, power: f64, last: f64, x: f64) -> f64
    ensures { result ≡ jv_at i power last x }
{
    if i < 2 { 0.0 } else { jv_of(power, last, x) }
}

// Writes over each value that of itself and the one before it.
fn write_jv(cells: &mut [f64], power: f64)
    ensures { Writing (length cells.old) (jv power (line cells.old)) cells.old
        cells.new }
{
    let mut last = 0.0;
    for i in 0..cells.len() {
        let x = cells[i];
        cells[i] = jv_at(i, power, last, x);
        last = x;
    }
}

// Writes the cells pass by pass.
fn write_passes(close: &[f64], n: usize, power: f64, out: &mut [f64])
    requires { Ready n (length close.now) (length out.old) × (length out.old ≡ length close.now) }
    ensures { Writing (length close.now)
        (jurik_line (length close.now) n power (line close.now)) out.old
        out.new }
{
    let alpha1 = 2.0 / ((n / 2 + 1) as f64);
    write_price_changes(close, out);
    passes::pass(out, Taken::Numbers, alpha1);
    passes::pass(out, Taken::Numbers, alpha1);
    write_jv(out, power);
    passes::third_pass(out, n);
}

// Whether x is a number that is not equal to `first`.
fn differing(first: f64, x: f64) -> bool
    ensures { result ≡ differs is_number first x }
{
    !x.is_nan() & (x != first)
}

// Whether the first pass averages: some change is of another size than the first.
fn changes_differ(close: &[f64]) -> bool
    ensures { result ≡ true → Differing (length close.now) (price_change (line close.now)) }
{
    let bars = close.len();
    if bars < 2 {
        return false;
    }
    let first = price_change_at(close, 1);
    for i in 2..bars {
        if !first.is_nan() & differing(first, price_change_at(close, i)) {
            return true;
        }
    }
    false
}

// Writes `jv` where both passes average, and says whether the second one does, if the first does.
fn average_twice(close: &[f64], alpha: f64, power: f64, out: &mut [f64]) -> bool
    requires { (1 < length close.now) × (length close.now ≤ length out.old) }
    ensures { JvWritten result (length close.now) alpha power (price_change (line close.now))
        out.old out.new }
{
    let bars = close.len();
    let first = price_change_at(close, 1);
    let mut smooth1 = first;
    let mut smooth2 = first;
    let mut differ = false;
    let start = cells::fill_lead(out, 2, bars, 0.0);
    for i in start..bars {
        let last = smooth2;
        smooth1 = averages::blend::blended(alpha, smooth1, price_change_at(close, i));
        smooth2 = averages::blend::blended(alpha, smooth2, smooth1);
        differ |= differing(first, smooth1);
        out[i] = jv_of(power, last, smooth2);
    }
    differ
}

// Writes `jv`, if both passes average, and says whether they do.
fn write_averaged_jv(close: &[f64], n: usize, power: f64, out: &mut [f64]) -> bool
    requires { Ready n (length close.now) (length out.old) }
    ensures { BothAverage result n (length close.now) power (line close.now) out.old
        out.new }
{
    let alpha1 = 2.0 / ((n / 2 + 1) as f64);
    if changes_differ(close) {
        average_twice(close, alpha1, power, out)
    } else {
        false
    }
}

// Writes the cells: the first two passes in one loop, or all of them one by one where one of those copies.
fn write_jurik(close: &[f64], n: usize, power: f64, out: &mut [f64])
    requires { Ready n (length close.now) (length out.old) × (length out.old ≡ length close.now) }
    ensures { Writing (length close.now)
        (jurik_line (length close.now) n power (line close.now)) out.old
        out.new }
{
    if write_averaged_jv(close, n, power, out) {
        passes::third_pass(out, n);
    } else {
        write_passes(close, n, power, out);
    }
}

// The volatility smoothed three times: see `jurik_line`.
pub fn jurik_volty(
    close: &[f64],
    period: usize,
    power: f64,
    out: &mut [f64],
    work: &mut [f64],
) -> Answer
    ensures { JurikCall close.now period power out.old work.old result
        out.new work.new }
{
    let due = checks::answer_numbers_and_window(close, &[power], period, out.len(), work.len());
    if checks::cells_due(due, close.len(), work) {
        write_jurik(close, period, power, &mut out[..close.len()]);
        cells::clear(work, 8 * close.len());
    }
    due
}
