// The exponential averages: each cell blends its price with the cell before it.
ghost use Rattle.std.specs.Prelude.{true, ◌-◌, ◌<◌, ◌≤◌, length};
ghost use Rattle.calls.specs.inner.Fits.{Fits};
ghost use Rattle.cells.specs.Line.{line};
ghost use Rattle.windows.specs.Window.{mean};
ghost use Rattle.averages.specs.inner.Tested.{TestedSeed};
ghost use Rattle.averages.specs.Blend.{ema_alpha};
ghost use Rattle.averages.specs.Ema.{EmaCall};
ghost use Rattle.averages.specs.ExponentialSmoothing.{ExponentialSmoothingCall};
ghost use Rattle.averages.specs.inner.Answers.{SmoothCall};

use calls::{Answer, Refusal};

// The answer of a smoothed line whose lengths are in order. It writes nothing before all prices are tested.
// Series, weight, first bar and seed are no struct: each function would take it apart at once.
fn answer_smooth(series: &[f64], alpha: f64, first: usize, seed: f64, out: &mut [f64]) -> Answer
    requires { TestedSeed series.now first true × (length series.now ≤ length out.old) }
    ensures { SmoothCall series.now alpha first seed out.old result out.new }
{
    let Ok(half) = crate::blend::blend_tested(series, alpha, first, Ok(seed)) else {
        return Err(Refusal::ValueNotAccepted);
    };
    crate::halves::write_smooth(series, alpha, first, seed, half, out);
    Ok(series.len())
}

// The answer of `ema` where the window fits.
fn answer_from_mean(series: &[f64], n: usize, out: &mut [f64]) -> Answer
    requires { Fits (length series.now) n (length out.old) }
    ensures { SmoothCall series.now (ema_alpha n) (n - 1) (mean n (line series.now) (n - 1))
        out.old result out.new }
{
    let alpha = 2.0 / ((n + 1) as f64);
    let Ok(sum) = crate::sum_tested(series, n) else {
        return Err(Refusal::ValueNotAccepted);
    };
    answer_smooth(series, alpha, n - 1, sum / (n as f64), out)
}

// The answer of `exponential_smoothing` where the lengths and alpha are in order.
fn answer_from_first(series: &[f64], alpha: f64, out: &mut [f64]) -> Answer
    requires { (0 < length series.now) × (length series.now ≤ length out.old) }
    ensures { SmoothCall series.now alpha 0 (line series.now 0) out.old result
        out.new }
{
    if !values::series::range_accepted(series, 0, 1) {
        return Err(Refusal::ValueNotAccepted);
    }
    answer_smooth(series, alpha, 0, series[0], out)
}

// The exponential mean with the weight 2 / (n + 1), from the mean of the first n prices on: TA-Lib's EMA.
pub fn ema(series: &[f64], n: usize, out: &mut [f64]) -> Answer
    ensures { EmaCall series.now n out.old result out.new }
{
    if !checks::window_fits(series.len(), n, out.len()) {
        return crate::answer_lead(series, n, out);
    }
    answer_from_mean(series, n, out)
}

// The exponential mean with the weight alpha, from the first price on.
pub fn exponential_smoothing(series: &[f64], alpha: f64, out: &mut [f64]) -> Answer
    ensures { ExponentialSmoothingCall series.now alpha out.old result out.new }
{
    if checks::window_fits(series.len(), 1, out.len()) & values::is_finite(alpha) {
        return answer_from_first(series, alpha, out);
    }
    checks::check(series, out.len())?;
    if values::is_finite(alpha) {
        Ok(0)
    } else {
        Err(Refusal::ParameterNotFinite)
    }
}
