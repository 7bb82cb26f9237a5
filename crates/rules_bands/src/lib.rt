// Both Bollinger rules: how their cells are written.
#![tactic(auto)]

mod bar;

ghost use Rattle.std.specs.Prelude.{length};
ghost use Rattle.cells.specs.Line.{line};
ghost use Rattle.cells.specs.Written.{Writing};
ghost use Rattle.cells.specs.inner.MoreWritten.{MoreWritten};
ghost use Rattle.cells.specs.inner.Touched.{Touched};
ghost use Rattle.windows.specs.inner.Windows.{WindowRoom};
ghost use Rattle.checks.specs.inner.Due.{Priced};
ghost use Rattle.rules_bands.specs.inner.Stages.{band_positions, bands_line, PositionsBefore};

// Writes the positions of a few bars from bar i on, and gives how many they are.
fn write_some_positions(
    means: &[f64],
    reverse: bool,
    n: usize,
    k: f64,
    i: usize,
    out: &mut [i32],
) -> usize
    requires { PositionsBefore n means.now i (band_positions reverse n k (line means.now)) out.old }
    ensures { MoreWritten (band_positions reverse n k (line means.now)) (length means.now)
        i result out.old out.new }
{
    let mut middles = [0.0; 8];
    let mut variances = [0.0; 8];
    let d = bar::divisor(reverse, n);
    let count = deviations::write_spreads(means, n, d, i, &mut middles, &mut variances);
    let inverse = 1.0 / k;
    let mut position = bar::position_before(out, i);
    for j in 0..count {
        position = bar::position_after(
            reverse,
            position,
            means[i + j],
            middles[j],
            k,
            inverse,
            variances[j],
        );
        out[i + j] = position;
    }
    count
}

// Writes each bar's position by the bands of the means.
fn write_positions(means: &[f64], reverse: bool, n: usize, k: f64, out: &mut [i32])
    requires { WindowRoom n (length means.now) (length out.old) }
    ensures { Writing (length means.now) (band_positions reverse n k (line means.now))
        out.old out.new }
{
    let mut i = rules_held::fill_flat(out, 2 * n - 2, means.len());
    // The step is what a turn wrote, which no range counts.
    while i < means.len() {
        i += write_some_positions(means, reverse, n, k, i, out);
    }
}

// Writes each bar's position, by the reverse rule or by the plain one. One row of `work` is used.
pub fn write_bands(
    series: &[f64],
    reverse: bool,
    n: usize,
    k: f64,
    out: &mut [i32],
    work: &mut [f64],
)
    requires { Priced 1 n series.now (length out.old) (length work.old) }
    ensures { Writing (length series.now) (bands_line reverse n k (line series.now))
        out.old out.new
        × Touched (length series.now) work.old work.new }
{
    let bars = series.len();
    window_means::write_means_of_prices(series, n, work);
    write_positions(&work[..bars], reverse, n, k, out);
}
