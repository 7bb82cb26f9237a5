// The exponential rule: its weight, and how a bar is written.
ghost use Rattle.std.specs.Prelude.{◌≡◌, length};
ghost use Rattle.limits.specs.Limits.{Window};
ghost use Rattle.cells.specs.Line.{plus_zero};
ghost use Rattle.cells.specs.inner.Finished.{Finished};
ghost use Rattle.averages.specs.Blend.{ema_alpha};
ghost use Rattle.rules_ema.specs.inner.Bar.{BarRoom, PositionPut, LeadRoom};

// The weight of a bar's mean in the average.
pub fn weight(n: usize) -> f64
    requires { Window n }
    ensures { result ≡ ema_alpha n }
{
    2.0 / ((n + 1) as f64)
}

// Writes the position of bar i, and clears the bar's work cells.
pub fn put_position(series: &[f64], i: usize, average: f64, out: &mut [f64], work: &mut [f64])
    requires { BarRoom series.now i (length out.old) (length work.old) }
    ensures { PositionPut series.now i average out.old out.new
        work.old work.new }
{
    out[i] = rounding::sign(series[i] - average);
    cells::rows::put(work, series.len(), i, 0.0);
}

// Clears the cells and the work cells of the first k bars.
pub fn clear_lead(bars: usize, k: usize, out: &mut [f64], work: &mut [f64])
    requires { LeadRoom bars k (length out.old) (length work.old) }
    ensures { Finished (λ i. plus_zero) bars k out.old out.new work.old
        work.new }
{
    cells::clear(out, k);
    cells::rows::clear_bars(work, bars, k);
}
