// The relative strength index of exponential averages of gains and losses, smoothed.
#![tactic(auto)]

ghost use Rattle.std.specs.Prelude.{◌≡◌, ◌-◌, ◌*◌, ◌<◌, ◌≤◌, length};
ghost use Rattle.limits.specs.Limits.{Window};
ghost use Rattle.cells.specs.Line.{line};
ghost use Rattle.cells.specs.Written.{Writing};
ghost use Rattle.cells.specs.inner.Touched.{Touched};
ghost use Rattle.rsx.specs.Rsx.{rsx_unsmoothed, rsx_line, rsx_answer, RsxCall};
ghost use Rattle.rsx.specs.inner.Averaged.{Averaged, RsxRoom};

use calls::Answer;
use changes::Averages;

// The averages of bar i, from those of the bar before.
fn next(close: &[f64], alpha: f64, i: usize, last: Averages) -> Averages
    requires i_nonzero { (0 < i) × (i < length close.now) }
    requires averaged { Averaged alpha (line close.now) (i - 1) last }
    ensures { Averaged alpha (line close.now) i result }
{
    let change = changes::change_at(close, i);
    last.moved(change, |cell, x| averages::blend::blended(alpha, cell, x))
}

// Writes the index of every bar, before it is smoothed: NaN at bar 0.
fn write_index(close: &[f64], n: usize, index: &mut [f64])
    requires { Window n × (0 < length close.now) × (length close.now ≤ length index.old) }
    ensures { Writing (length close.now) (rsx_unsmoothed n (line close.now))
        index.old index.new }
{
    let alpha = 1.0 / (n as f64);
    let mut averages = Averages {
        gain: 0.0,
        loss: 0.0,
    };
    index[0] = f64::NAN;
    for i in 1..close.len() {
        averages = next(close, alpha, i, averages);
        index[i] = changes::strength_index(averages.gain, averages.loss);
    }
}

// Writes the smoothed index of every bar. The first row of `work` is used.
fn write_rsx(close: &[f64], n: usize, m: usize, out: &mut [f64], work: &mut [f64])
    requires { RsxRoom n m close.now (length out.old) (length work.old) }
    ensures { Writing (length close.now) (rsx_line n m (line close.now))
        out.old out.new
        × Touched (length close.now) work.old work.new }
{
    let bars = close.len();
    write_index(close, n, work);
    smoother::write_smooth(&work[..bars], m, out);
}

// The answer of a call: the window is one of bars, and the smoother period another.
fn answer_rsx(close: &[f64], n: usize, m: usize, out: usize, work: usize) -> Answer
    ensures { result ≡ rsx_answer close.now n m out work }
{
    let bars = close.len();
    checks::check_with_work(close, out, work)?;
    checks::check_parameters(bars, &[], &[n], &[m], Ok(bars))
}

// The smoothed relative strength index: see `rsx_line`.
pub fn rsx_ss2(
    close: &[f64],
    period: usize,
    smooth_period: usize,
    out: &mut [f64],
    work: &mut [f64],
) -> Answer
    ensures { RsxCall close.now period smooth_period out.old work.old result
        out.new work.new }
{
    let due = answer_rsx(close, period, smooth_period, out.len(), work.len());
    if checks::cells_due(due, close.len(), work) {
        write_rsx(close, period, smooth_period, out, work);
        cells::clear(work, 8 * close.len());
    }
    due
}
