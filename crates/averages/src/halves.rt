// A line of exponential steps, written from its seed on in two halves side by side.
ghost use Rattle.std.specs.Prelude.{◌+◌, ◌-◌, ◌≤◌, length};
ghost use Rattle.cells.specs.Line.{line};
ghost use Rattle.averages.specs.inner.Blending.{Middle};
ghost use Rattle.averages.specs.inner.Smoothing.{BlendedRest, BlendedBoth, Smoothing, Smooth};

// The last cells of two parts that are written side by side.
#[derive(Clone, Copy)]
struct Ends {
    lower: f64,
    upper: f64,
}

// Writes `count` cells from bar `low` on and as many from bar `high` on, side by side. Each part goes on from its last
// cell.
fn blend_both(
    series: &[f64],
    alpha: f64,
    last: Ends,
    low: usize,
    high: usize,
    count: usize,
    out: &mut [f64],
) -> Ends
    requires { (low + count ≤ high) × (high + count ≤ length series.now)
        × (length series.now ≤ length out.old) }
    ensures { BlendedBoth alpha (line series.now) last.lower last.upper low high count
        out.old result.lower result.upper out.new }
{
    let mut lower = last.lower;
    let mut upper = last.upper;
    for k in 0..count {
        lower = crate::blend::blended(alpha, lower, series[low + k]);
        upper = crate::blend::blended(alpha, upper, series[high + k]);
        out[low + k] = lower;
        out[high + k] = upper;
    }
    Ends { lower, upper }
}

// Writes the cells from bar `from` on, of which the first goes on from the cell `last`.
fn blend_rest(series: &[f64], alpha: f64, last: f64, from: usize, out: &mut [f64])
    requires { (from ≤ length series.now) × (length series.now ≤ length out.old) }
    ensures { BlendedRest alpha (line series.now) last from (length series.now - from)
        out.old out.new }
{
    let mut cell = last;
    for i in from..series.len() {
        cell = crate::blend::blended(alpha, cell, series[i]);
        out[i] = cell;
    }
}

// Writes the blended cells after bar `first`, where the seed stands: both halves side by side, eight bars of each at a
// time, the second from the cell half way on; then the second half's last bars.
fn blend_halves(series: &[f64], alpha: f64, first: usize, seed: f64, middle: f64, out: &mut [f64])
    requires { Smoothing series.now alpha first seed (first + 1) out.old
        × Middle series.now alpha first seed middle }
    ensures { Smooth series.now alpha first seed out.old out.new }
{
    let eights = (series.len() - first - 1) / 16;
    let low = first + 1;
    let high = low + 8 * eights;
    let mut last = Ends {
        lower: seed,
        upper: middle,
    };
    for k in 0..eights {
        last = blend_both(series, alpha, last, low + 8 * k, high + 8 * k, 8, out);
    }
    blend_rest(series, alpha, last.upper, high + 8 * eights, out);
}

// Writes the cells of a smoothed line: NaN, the seed at bar `first`, and the blended cells after it.
pub fn write_smooth(
    series: &[f64],
    alpha: f64,
    first: usize,
    seed: f64,
    middle: f64,
    out: &mut [f64],
)
    requires { Smoothing series.now alpha first seed 0 out.old × Middle series.now alpha first seed middle }
    ensures { Smooth series.now alpha first seed out.old out.new }
{
    cells::fill_nan(out, first, series.len());
    out[first] = seed;
    blend_halves(series, alpha, first, seed, middle, out);
}
