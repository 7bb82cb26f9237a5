// The ultimate smoother: its cells and the entry point.
#![tactic(auto)]

ghost use Rattle.std.specs.Prelude.{◌≡◌, ◌≤◌, length};
ghost use Rattle.cells.specs.Line.{line};
ghost use Rattle.cells.specs.Written.{Writing};
ghost use Rattle.smoother.specs.Smoother.{formula, UltimateSmootherCall};
ghost use Rattle.smoother_table.specs.Coefficients.{coefficients};
ghost use Rattle.smoother.specs.inner.Stages.{FirstFour, Smoothed};
ghost use Rattle.limits.specs.Limits.{longest_period};

use calls::{Answer, Refusal};
use smoother_table::Coefficients;

// One cell, from the last three prices, the newest first, and the last two cells.
pub fn step(c: Coefficients, p0: f64, p1: f64, p2: f64, us1: f64, us2: f64) -> f64
    ensures { result ≡ formula c p0 p1 p2 us1 us2 }
{
    (1.0 - c.c1) * p0 + (2.0 * c.c1 - c.c2) * p1 - (c.c1 + c.c3) * p2 + c.c2 * us1 + c.c3 * us2
}

// Copies the first n cells: a turn for each, since by `copy_from_slice` the library for C asks for `memmove`.
fn copy(from: &[f64], n: usize, to: &mut [f64])
    requires { (n ≤ length from.now) × (n ≤ length to.old) }
    ensures { Writing n (line from.now) to.old to.new }
{
    for i in 0..n {
        to[i] = from[i];
    }
}

// Writes the cells from bar 4 on, where the first four stand.
fn write_steps(price: &[f64], c: Coefficients, out: &mut [f64])
    requires { FirstFour c price.now out.old }
    ensures { Smoothed c price.now out.old out.new }
{
    for i in 4..price.len() {
        out[i] = step(
            c,
            price[i],
            price[i - 1],
            price[i - 2],
            out[i - 1],
            out[i - 2],
        );
    }
}

// Writes the smoother's line of any series.
pub fn write_smooth(price: &[f64], period: usize, out: &mut [f64])
    requires { (period ≤ longest_period) × (length price.now ≤ length out.old) }
    ensures { Smoothed (coefficients period) price.now out.old out.new }
{
    copy(price, price.len().min(4), out);
    if price.len() > 4 {
        write_steps(price, Coefficients::of_period(period), out);
    }
}

// The ultimate smoother: see `smoother_answer` and `smooth`.
pub fn ultimate_smoother(price: &[f64], period: f64, out: &mut [f64]) -> Answer
    ensures { UltimateSmootherCall price.now period out.old result out.new }
{
    checks::check(price, out.len())?;
    if !values::is_finite(period) {
        return Err(Refusal::ParameterNotFinite);
    }
    if !smoother_table::is_period(period) {
        return Err(Refusal::WindowTooLong);
    }
    let whole = std::num::truncating_f64_to_u64(period) as usize;
    write_smooth(price, whole, out);
    Ok(price.len())
}
