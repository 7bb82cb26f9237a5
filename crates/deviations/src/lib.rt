// Squares about the mean of a window, each window summed afresh from left to right, of some bars side by side.
#![tactic(auto)]

ghost use Rattle.std.specs.Prelude.{◌≡◌, ◌+◌, ◌<◌, ◌≤◌, length};
ghost use Rattle.cells.specs.Line.{line};
ghost use Rattle.windows.specs.inner.Windows.{Windows};
ghost use Rattle.deviations.specs.inner.Spread.{each_plus_square, About, SpreadRoom, Spread};

// Each lane with the square of a distance added: of its cell, of the N from `at` on, from its own middle.
fn plus_squares<const N: usize>(
    mut sums: [f64; N],
    cells: &[f64],
    at: usize,
    middles: [f64; N],
) -> [f64; N]
    requires { at + N ≤ length cells.now }
    ensures { result ≡ each_plus_square (line cells.now) at middles.entry sums.entry }
{
    for lane in 0..N {
        let apart = cells[at + lane] - middles[lane];
        sums[lane] += apart * apart;
    }
    sums
}

// The squares of the n cells up to each of the N bars from i on, about the bar's own middle.
fn squares_side_by_side<const N: usize>(
    cells: &[f64],
    n: usize,
    i: usize,
    middles: [f64; N],
) -> [f64; N]
    requires { Windows n i N (length cells.now) }
    ensures { About N n (line cells.now) i middles.entry result }
{
    let at = i + 1 - n;
    let mut sums = [-0.0; N];
    for k in 0..n {
        sums = plus_squares(sums, cells, at + k, middles);
    }
    sums
}

// Writes the means of the n cells up to each of the N bars from i on, and their variances over d.
fn write_side_by_side<const N: usize>(
    cells: &[f64],
    n: usize,
    d: usize,
    i: usize,
    middles: &mut [f64],
    variances: &mut [f64],
)
    requires room { SpreadRoom n d i (length cells.now) (length middles.old) (length variances.old) }
    requires lanes { (0 < N) × (N ≤ 8) × (i + N ≤ length cells.now) }
    ensures { Spread n d cells.now i N middles.old variances.old
        middles.new variances.new }
{
    let means: [f64; N] = windows::means_side_by_side(cells, n, i);
    let squares = squares_side_by_side(cells, n, i, means);
    window_means::store(middles, 0, means);
    window_means::store(variances, 0, windows::divided(squares, d));
}

// Writes the means of the n cells up to each bar from i on, and their variances over d: for eight bars, or for one
// where fewer are left. Gives how many they are.
pub fn write_spreads(
    cells: &[f64],
    n: usize,
    d: usize,
    i: usize,
    middles: &mut [f64],
    variances: &mut [f64],
) -> usize
    requires { SpreadRoom n d i (length cells.now) (length middles.old) (length variances.old) }
    ensures { Spread n d cells.now i result middles.old variances.old
        middles.new variances.new }
{
    if i + 8 <= cells.len() {
        write_side_by_side::<8>(cells, n, d, i, middles, variances);
        8
    } else {
        write_side_by_side::<1>(cells, n, d, i, middles, variances);
        1
    }
}
