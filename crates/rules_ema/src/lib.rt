// The exponential rule: how its cells are written.
#![tactic(auto)]

mod bar;
mod by_margins;
mod far;
mod start;

ghost use Rattle.std.specs.Prelude.{◌≡◌, length};
ghost use Rattle.cells.specs.Line.{line};
ghost use Rattle.cells.specs.inner.Finished.{Finished};
ghost use Rattle.checks.specs.inner.Due.{Priced};
ghost use Rattle.window_means.specs.inner.Ticks.{long_ticks};
ghost use Rattle.rules_ema.specs.SingleEma.{single_ema_from, single_ema_line};
ghost use Rattle.rules_ema.specs.inner.Stages.{Started};

// Writes each bar's position over the mean that stands in its cell, from the average's first bar and cell on. Clears
// the bar's work cells while an average waits for the one before it.
fn write_from(series: &[f64], n: usize, start: usize, seed: f64, out: &mut [f64], work: &mut [f64])
    requires { Started n series.now start seed out.old (length work.old) }
    ensures { Finished (single_ema_from start n (line series.now)) (length series.now)
        (length series.now) out.old out.new work.old work.new }
{
    let alpha = bar::weight(n);
    let mut average = seed;
    bar::clear_lead(series.len(), start, out, work);
    bar::put_position(series, start, average, out, work);
    for i in start + 1..series.len() {
        average = averages::blend::blended(alpha, average, out[i]);
        bar::put_position(series, i, average, out, work);
    }
}

// Writes each bar's position over the means of all bars, and clears the work slice.
fn write_over_means(series: &[f64], n: usize, ticks: bool, out: &mut [f64], work: &mut [f64])
    requires priced { Priced 8 n series.now (length out.old) (length work.old) }
    requires ticks_value { ticks ≡ long_ticks n series.now }
    ensures { Finished (single_ema_line (length series.now) n (line series.now))
        (length series.now) (length series.now) out.old out.new
        work.old work.new }
{
    let bars = series.len();
    window_means::write_means_by(series, n, ticks, out);
    let start = start::first_bar(&out[..bars], n);
    if start < bars {
        let seed = windows::mean_at(&out[..bars], n, start);
        write_from(series, n, start, seed, out, work);
    } else {
        bar::clear_lead(bars, bars, out, work);
    }
}

// Writes each bar's position, and clears the work slice.
pub fn write_ema(series: &[f64], n: usize, out: &mut [f64], work: &mut [f64])
    requires { Priced 8 n series.now (length out.old) (length work.old) }
    ensures { Finished (single_ema_line (length series.now) n (line series.now))
        (length series.now) (length series.now) out.old out.new
        work.old work.new }
{
    let ticks = window_means::are_long_ticks(series, n);
    if !by_margins::write_by_margins(series, n, ticks, out, work) {
        write_over_means(series, n, ticks, out, work);
    }
}
