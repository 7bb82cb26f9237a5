// The averages: `sma`, whose window slides, with what the others share with it; and the exponential averages
// (`exponential`).
#![tactic(auto)]

pub mod blend;
pub mod exponential;
mod halves;

ghost use Rattle.std.specs.Prelude.{◌≡◌, false, [], ◌∷◌, ◌-◌, ◌<◌, ◌≤◌, length, is_ok};
ghost use Rattle.std.specs.Float.{nan};
ghost use Rattle.values.specs.Accepted.{accepted};
ghost use Rattle.calls.specs.Answer.{answered};
ghost use Rattle.calls.specs.inner.Fits.{window_fits};
ghost use Rattle.calls.specs.Call.{Call};
ghost use Rattle.cells.specs.Line.{Line, line, from_bar};
ghost use Rattle.cells.specs.Written.{Writing};
ghost use Rattle.windows.specs.inner.Means.{Summed};
ghost use Rattle.averages.specs.Sma.{sma_line, SmaCall};
ghost use Rattle.averages.specs.inner.Stages.{TestedSum};
ghost use Rattle.averages.specs.inner.Tested.{value_of};

use calls::{Answer, Refusal};

// A sum or a cell: in `Ok` if a series may hold all prices up to it, and in `Err` if not.
fn tested(accept: bool, x: f64) -> Result<f64, f64>
    ensures { (value_of result ≡ x) × (is_ok result ≡ accept) }
{
    if accept { Ok(x) } else { Err(x) }
}

// The sum of the first n prices: in `Ok` if a series may hold them, and in `Err` if not. An addition waits for the one
// before it, and the prices are tested meanwhile, eight at a time.
pub fn sum_tested(series: &[f64], n: usize) -> Result<f64, f64>
    requires { (0 < n) × (n ≤ length series.now) }
    ensures { TestedSum series.now n result }
{
    let mut accept = true;
    let mut sum = -0.0;
    let eights = n / 8;
    for k in 0..eights {
        accept &= values::series::range_accepted(series, 8 * k, 8);
        sum = windows::sum_more(sum, series, 8 * k, 8);
    }
    let end = 8 * eights;
    accept &= values::series::range_accepted(series, end, n - end);
    tested(accept, windows::sum_more(sum, series, end, n - end))
}

// Writes the cells of `sma` from the sum of the first n prices.
fn write_means(series: &[f64], n: usize, sum: f64, out: &mut [f64])
    requires { Summed series.now n sum (length out.old) }
    ensures { Writing (length series.now) (sma_line n (line series.now))
        out.old out.new }
{
    cells::fill_nan(out, n - 1, series.len());
    out[n - 1] = sum / (n as f64);
    windows::sliding::slide_means(series, n, sum, out);
}

// The answer of a call whose window does not fit: where cells are due, the bars end before the window does, and all
// are NaN.
pub fn answer_lead(series: &[f64], n: usize, out: &mut [f64]) -> Answer
    requires { window_fits (length series.now) n (length out.old) ≡ false }
    ensures { (f : Line) → Call (answered accepted series.now (n ∷ []) (length out.old)
        []) (from_bar (n - 1) nan f)
        out.old result out.new }
{
    let due = checks::answer_window(series, n, out.len());
    if calls::has_cells(due) {
        cells::fill_nan(out, n - 1, series.len());
    }
    due
}

// The mean of the last n prices: TA-Lib's SMA.
pub fn sma(series: &[f64], n: usize, out: &mut [f64]) -> Answer
    ensures { SmaCall series.now n out.old result out.new }
{
    if !checks::window_fits(series.len(), n, out.len()) {
        return answer_lead(series, n, out);
    }
    let Ok(sum) = sum_tested(series, n) else {
        return Err(Refusal::ValueNotAccepted);
    };
    if !values::series::accepted_from(series, n) {
        return Err(Refusal::ValueNotAccepted);
    }
    write_means(series, n, sum, out);
    Ok(series.len())
}
