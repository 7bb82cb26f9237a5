// Wilder's average, and the relative strength index that is made of those of gains and losses.
#![tactic(auto)]

ghost use Rattle.std.specs.Prelude.{◌≡◌, ◌-◌, ◌<◌, ◌≤◌, length};
ghost use Rattle.limits.specs.Limits.{Window};
ghost use Rattle.averages_wilder.specs.Wilder.{wilder_step, wilder};
ghost use Rattle.cells.specs.Line.{line};
ghost use Rattle.cells.specs.Written.{Writing};
ghost use Rattle.averages_wilder.specs.WilderRsi.{wilder_cell, WilderRsiCall};
ghost use Rattle.averages_wilder.specs.inner.Averaged.{Averaged, Room, Indexed};

use calls::Answer;
use changes::Averages;

// Wilder's next average: n - 1 parts of the last one and one part of x.
pub fn step(last: f64, n: usize, x: f64) -> f64
    requires { Window n }
    ensures { result ≡ wilder_step n last x }
{
    (last * ((n - 1) as f64) + x) / (n as f64)
}

// The mean of the first n cells, summed from +0.0.
fn first_mean(series: &[f64], n: usize) -> f64
    requires { Window n × (n ≤ length series.now) }
    ensures { result ≡ wilder n (n - 1) (line series.now) (n - 1) }
{
    let mut sum = 0.0;
    for x in &series[..n] {
        sum += *x;
    }
    sum / (n as f64)
}

// Writes the averages from bar n - 1 on, where the cells before it stand.
fn write_from_mean(series: &[f64], n: usize, out: &mut [f64])
    requires window { Window n × (n ≤ length series.now) × (length series.now ≤ length out.old) }
    requires writing { Writing (n - 1) (wilder n (n - 1) (line series.now)) out.old out.old }
    ensures { Writing (length series.now) (wilder n (n - 1) (line series.now))
        out.old out.new }
{
    let mut last = first_mean(series, n);
    out[n - 1] = last;
    for i in n..series.len() {
        last = step(last, n, series[i]);
        out[i] = last;
    }
}

// Writes Wilder's average of a line, NaN before bar n - 1.
pub fn write_average(series: &[f64], n: usize, out: &mut [f64])
    requires { Window n × (length series.now ≤ length out.old) }
    ensures { Writing (length series.now) (wilder n (n - 1) (line series.now))
        out.old out.new }
{
    let first = cells::fill_nan(out, n - 1, series.len());
    if first < series.len() {
        write_from_mean(series, n, out);
    }
}

// The cell of two averages: where the average loss is 0, 50 if the gain is 0 too and else 100.
fn cell(averages: Averages) -> f64
    ensures { result ≡ wilder_cell averages.gain averages.loss }
{
    if averages.loss == 0.0 {
        if averages.gain == 0.0 { 50.0 } else { 100.0 }
    } else {
        changes::strength(averages.gain, averages.loss)
    }
}

// The means of the first n gains and losses, each summed from +0.0.
fn seed(series: &[f64], n: usize) -> Averages
    requires { Window n × (n < length series.now) }
    ensures { Averaged n (line series.now) n result }
{
    let mut gain = 0.0;
    let mut loss = 0.0;
    for i in 1..n + 1 {
        let change = changes::change_at(series, i);
        gain += changes::gain_of(change);
        loss += changes::loss_of(change);
    }
    Averages {
        gain: gain / (n as f64),
        loss: loss / (n as f64),
    }
}

// The averages of bar i, from those of the bar before.
fn next(series: &[f64], n: usize, i: usize, last: Averages) -> Averages
    requires window { Window n × (n < i) × (i < length series.now) }
    requires averaged { Averaged n (line series.now) (i - 1) last }
    ensures { Averaged n (line series.now) i result }
{
    let change = changes::change_at(series, i);
    last.moved(change, |cell, x| step(cell, n, x))
}

// Writes the cells from bar n on, where those before it stand, and clears each bar's work cells while an average waits
// for the one before it.
fn write_from_seed(series: &[f64], n: usize, out: &mut [f64], work: &mut [f64])
    requires room { Room n (length series.now) (length out.old) (length work.old) × (n < length series.now) }
    requires indexed { Indexed n series.now n out.old out.old work.old work.old }
    ensures { Indexed n series.now (length series.now) out.old
        out.new work.old work.new }
{
    let bars = series.len();
    let mut averages = seed(series, n);
    out[n] = cell(averages);
    cells::rows::put(work, bars, n, 0.0);
    for i in n + 1..bars {
        averages = next(series, n, i, averages);
        out[i] = cell(averages);
        cells::rows::put(work, bars, i, 0.0);
    }
}

// Writes the index of every bar, NaN before bar n, and clears the work slice.
fn write_wilder_rsi(series: &[f64], n: usize, out: &mut [f64], work: &mut [f64])
    requires { Room n (length series.now) (length out.old) (length work.old) }
    ensures { Indexed n series.now (length series.now) out.old
        out.new work.old work.new }
{
    let bars = series.len();
    let first = cells::fill_nan(out, n, bars);
    cells::rows::clear_bars(work, bars, first);
    if first < bars {
        write_from_seed(series, n, out, work);
    }
}

// Wilder's relative strength index: see `wilder_rsi_line`.
pub fn wilder_rsi(series: &[f64], n: usize, out: &mut [f64], work: &mut [f64]) -> Answer
    ensures { WilderRsiCall series.now n out.old work.old result
        out.new work.new }
{
    let due = checks::answer_window_with_work(series, n, out.len(), work.len());
    if checks::cells_due(due, series.len(), work) {
        write_wilder_rsi(series, n, out, work);
    }
    due
}
