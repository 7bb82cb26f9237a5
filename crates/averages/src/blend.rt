// The step of the exponential averages, and the cell half way with the test of all prices meanwhile.
ghost use Rattle.std.specs.Prelude.{◌≡◌, ◌+◌, ◌≤◌, length, is_ok};
ghost use Rattle.cells.specs.Line.{line};
ghost use Rattle.averages.specs.Blend.{blend};
ghost use Rattle.averages.specs.inner.Blending.{blend_from};
ghost use Rattle.averages.specs.inner.Tested.{value_of, TestedSeed, TestedHalf};

// alpha of x and the rest of `last`.
pub fn blended(alpha: f64, last: f64, x: f64) -> f64
    ensures { result ≡ blend alpha last x }
{
    alpha * x + (1.0 - alpha) * last
}

// The cell after `count` prices more, from `at` on, each blended with the cell before it.
fn blend_more(alpha: f64, last: f64, series: &[f64], at: usize, count: usize) -> f64
    requires { at + count ≤ length series.now }
    ensures { result ≡ blend_from alpha last (line series.now) at count }
{
    let mut cell = last;
    for price in &series[at..at + count] {
        cell = blended(alpha, cell, *price);
    }
    cell
}

// The sum or the cell, in `Ok` or in `Err`.
fn value_of(tested: Result<f64, f64>) -> f64
    ensures { result ≡ value_of tested }
{
    match tested {
        Ok(x) | Err(x) => x,
    }
}

// The cell half way through the bars after the seed: in `Ok` if a series may hold all prices, and in `Err` if not. The
// seed tells the same of the prices up to its bar. A cell waits for the one before it, and the prices of both halves
// are tested meanwhile, eight at a time.
pub fn blend_tested(
    series: &[f64],
    alpha: f64,
    first: usize,
    seed: Result<f64, f64>,
) -> Result<f64, f64>
    requires { TestedSeed series.now first (is_ok seed) }
    ensures { TestedHalf series.now alpha first (value_of seed) result }
{
    let eights = (series.len() - first - 1) / 16;
    let low = first + 1;
    let high = low + 8 * eights;
    let mut accept = seed.is_ok();
    let mut last = value_of(seed);
    for k in 0..eights {
        accept &= values::series::range_accepted(series, low + 8 * k, 8);
        accept &= values::series::range_accepted(series, high + 8 * k, 8);
        last = blend_more(alpha, last, series, low + 8 * k, 8);
    }
    let end = high + 8 * eights;
    accept &= values::series::range_accepted(series, end, series.len() - end);
    crate::tested(accept, last)
}
