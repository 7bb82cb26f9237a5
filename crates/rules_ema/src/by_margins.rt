// The exponential rule: its cells by running sums where no price is in doubt.
ghost use Rattle.std.specs.Prelude.{◌≡◌, length};
ghost use Rattle.cells.specs.Line.{line};
ghost use Rattle.checks.specs.inner.Due.{Priced};
ghost use Rattle.window_means.specs.inner.Ticks.{long_ticks};
ghost use Rattle.rules_ema.specs.SingleEma.{single_ema_from, single_ema_line};
ghost use Rattle.rules_ema.specs.inner.ByMargins.{HeadRoom, HeadWritten, StartedByMargins, FinishedIf};

// Writes each bar's position, with the means after bar `start` by a running sum: as far as price and average are
// farther apart than d, which decides. It says whether they are up to the last bar.
fn write_from_by_margins(
    series: &[f64],
    n: usize,
    start: usize,
    seed: f64,
    d: f64,
    out: &mut [f64],
    work: &mut [f64],
) -> bool
    requires { StartedByMargins n series.now start seed d (length out.old) (length work.old) }
    ensures { FinishedIf result (single_ema_from start n (line series.now)) (length series.now)
        out.old out.new work.old work.new }
{
    crate::bar::clear_lead(series.len(), start, out, work);
    if !crate::far::is_decided(d, series[start], seed) {
        return false;
    }
    crate::bar::put_position(series, start, seed, out, work);
    let alpha = crate::bar::weight(n);
    let count = n as f64;
    let mut sum = windows::sum_at(series, n, start);
    let mut average = seed;
    for i in start + 1..series.len() {
        sum = sum + (series[i] - series[i - n]);
        average = averages::blend::blended(alpha, average, sum / count);
        if !crate::far::is_decided(d, series[i], average) {
            return false;
        }
        crate::bar::put_position(series, i, average, out, work);
    }
    true
}

// Writes the means of the first 2n - 1 bars by running sums, and gives the mean of the last n of them.
fn write_head(series: &[f64], n: usize, out: &mut [f64]) -> f64
    requires { HeadRoom n (length series.now) (length out.old) }
    ensures { HeadWritten n (line series.now) result out.old out.new }
{
    let head = 2 * n - 1;
    windows::sliding::write_running_means(&series[..head], n, out);
    windows::mean_at(&out[..head], n, head - 1)
}

// The shortest window that running sums are tried with on prices that are no whole ticks.
const SHORTEST_BY_MARGINS: usize = 20;

// Writes each bar's position by running sums, if the prices are whole ticks or the window is long enough for that to
// pay, the first mean is not 0 and they decide every bar, and says whether it did.
pub fn write_by_margins(
    series: &[f64],
    n: usize,
    ticks: bool,
    out: &mut [f64],
    work: &mut [f64],
) -> bool
    requires priced { Priced 8 n series.now (length out.old) (length work.old) }
    requires ticks_value { ticks ≡ long_ticks n series.now }
    ensures { FinishedIf result (single_ema_line (length series.now) n (line series.now))
        (length series.now) out.old out.new work.old work.new }
{
    if (n < SHORTEST_BY_MARGINS) & !ticks {
        return false;
    }
    let start = 2 * n - 2;
    if start < series.len() {
        let seed = write_head(series, n, out);
        if out[n - 1] != 0.0 {
            let d = crate::far::distance(series, ticks);
            return write_from_by_margins(series, n, start, seed, d, out, work);
        }
    }
    false
}
