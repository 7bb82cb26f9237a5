// The tanh rule: how its cells are written, and the cell of one score.
#![tactic(auto)]

mod bar;
mod table;

ghost use Rattle.std.specs.Prelude.{◌≡◌, length};
ghost use Rattle.cells.specs.Line.{line};
ghost use Rattle.cells.specs.Written.{Writing};
ghost use Rattle.cells.specs.inner.MoreWritten.{MoreWritten};
ghost use Rattle.cells.specs.inner.Touched.{Touched};
ghost use Rattle.windows.specs.inner.Windows.{WindowRoom};
ghost use Rattle.checks.specs.inner.Due.{Priced};
ghost use Rattle.rules_tanh.specs.Tanh.{tanh_cell, tanh_of_means, tanh_line};
ghost use Rattle.rules_tanh.specs.inner.Bars.{BarsBefore};

// The cell of a score.
pub fn tanh_cell(score: f64) -> f64
    ensures { result ≡ tanh_cell score }
{
    let thresholds = table::THRESHOLDS;
    bar::cell_of(&thresholds, score)
}

// Writes the cells of a few bars from bar i on, and gives how many they are.
fn write_some(means: &[f64], table: &[f64; 100], n: usize, i: usize, out: &mut [f64]) -> usize
    requires { BarsBefore n means.now table.now i out.old }
    ensures { MoreWritten (tanh_of_means n (line means.now)) (length means.now)
        i result out.old out.new }
{
    let mut middles = [0.0; 8];
    let mut variances = [0.0; 8];
    let count = deviations::write_spreads(means, n, n - 1, i, &mut middles, &mut variances);
    for j in 0..count {
        let score = bar::score_of(means[i + j], middles[j], variances[j]);
        out[i + j] = bar::cell_of(table, score);
    }
    count
}

// Writes each bar's cell by the means.
fn write_by_means(means: &[f64], n: usize, out: &mut [f64])
    requires { WindowRoom n (length means.now) (length out.old) }
    ensures { Writing (length means.now) (tanh_of_means n (line means.now))
        out.old out.new }
{
    let thresholds = table::THRESHOLDS;
    let mut i = cells::fill_lead(out, 2 * n - 2, means.len(), 0.0);
    // The step is what a turn wrote, which no range counts.
    while i < means.len() {
        i += write_some(means, &thresholds, n, i, out);
    }
}

// Writes each bar's position. One row of `work` is used.
pub fn write_tanh(series: &[f64], n: usize, out: &mut [f64], work: &mut [f64])
    requires { Priced 1 n series.now (length out.old) (length work.old) }
    ensures { Writing (length series.now) (tanh_line n (line series.now)) out.old
        out.new
        × Touched (length series.now) work.old work.new }
{
    let bars = series.len();
    window_means::write_means_of_prices(series, n, work);
    write_by_means(&work[..bars], n, out);
}
