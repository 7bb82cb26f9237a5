// Writing the mean of each bar's window: by running sums where the prices are whole ticks, and else each window summed
// afresh, sixteen bars at a time.
#![tactic(auto)]

pub mod ranges;

ghost use Rattle.std.specs.Prelude.{◌≡◌, true, ◌+◌, ◌<◌, ◌≤◌, length};
ghost use Rattle.cells.specs.Line.{line};
ghost use Rattle.cells.specs.Written.{Writing};
ghost use Rattle.windows.specs.Window.{mean};
ghost use Rattle.windows.specs.inner.Windows.{WindowRoom};
ghost use Rattle.window_means.specs.inner.Storing.{stored, MeansBefore, MeansUpTo};
ghost use Rattle.values.specs.Accepted.{tick, all};
ghost use Rattle.window_means.specs.inner.Ticks.{long_ticks};
ghost use Rattle.window_means.specs.inner.Row.{means_of_row, RowRoom, RowUpTo};

// Stores the lanes from cell `at` on.
pub fn store<const N: usize>(means: &mut [f64], at: usize, lanes: [f64; N])
    requires { at + N ≤ length means.old }
    ensures { means.new ≡ stored means.old at lanes.entry }
{
    // A turn for each cell: `copy_from_slice` first asks whether the two overlap, and was slower.
    for lane in 0..N {
        means[at + lane] = lanes[lane];
    }
}

// Writes the means from bar `from` on, N bars side by side, and gives the bar where fewer than N are left.
fn write_side_by_side<const N: usize>(
    series: &[f64],
    n: usize,
    from: usize,
    means: &mut [f64],
) -> usize
    requires some { 0 < N }
    requires before { MeansBefore series.now n from means.old }
    ensures { MeansUpTo N series.now n from result means.old means.new }
{
    let mut i = from;
    // `while`: the bar where it stops is given.
    while series.len() - i >= N {
        let lanes: [f64; N] = windows::means_side_by_side(series, n, i);
        store(means, i, lanes);
        i += N;
    }
    i
}

// Writes the mean of each bar's window, and 0.0 before the first whole one.
pub fn write_means(series: &[f64], n: usize, means: &mut [f64])
    requires { WindowRoom n (length series.now) (length means.old) }
    ensures { Writing (length series.now) (mean n (line series.now)) means.old
        means.new }
{
    let first = cells::fill_lead(means, n - 1, series.len(), 0.0);
    let fewer = write_side_by_side::<16>(series, n, first, means);
    let few = write_side_by_side::<8>(series, n, fewer, means);
    write_side_by_side::<1>(series, n, few, means);
}

// Writes the means of whole ticks by running sums, which are exact, so that each cell is that of its window summed
// afresh.
pub fn write_means_of_ticks(series: &[f64], n: usize, means: &mut [f64])
    requires window_room { WindowRoom n (length series.now) (length means.old) }
    requires series_value { all tick series.now ≡ true }
    ensures { Writing (length series.now) (mean n (line series.now)) means.old
        means.new }
{
    windows::sliding::write_running_means(series, n, means);
}

// Windows up to this many bars are summed afresh also on whole ticks: running sums are no faster there.
const LONGEST_AFRESH: usize = 12;

// Whether it pays to know that the prices are whole ticks, and they are: where the window is long, running sums are
// faster.
pub fn are_long_ticks(series: &[f64], n: usize) -> bool
    ensures { result ≡ long_ticks n series.now }
{
    n > LONGEST_AFRESH && values::series::all_ticks(series)
}

// Writes the means of prices, where it is known whether they are whole ticks: `ticks` is that fact, tested once.
pub fn write_means_by(series: &[f64], n: usize, ticks: bool, means: &mut [f64])
    requires window_room { WindowRoom n (length series.now) (length means.old) }
    requires ticks_value { ticks ≡ long_ticks n series.now }
    ensures { Writing (length series.now) (mean n (line series.now)) means.old
        means.new }
{
    if ticks {
        write_means_of_ticks(series, n, means);
    } else {
        write_means(series, n, means);
    }
}

// Writes the means of prices.
pub fn write_means_of_prices(series: &[f64], n: usize, means: &mut [f64])
    requires { WindowRoom n (length series.now) (length means.old) }
    ensures { Writing (length series.now) (mean n (line series.now)) means.old
        means.new }
{
    write_means_by(series, n, are_long_ticks(series, n), means);
}

// Writes the means of a row to another row of the same slice, from bar `first` on and N bars side by side, and gives
// the bar where fewer than N are left.
fn row_side_by_side<const N: usize>(
    cells: &mut [f64],
    from: usize,
    to: usize,
    bars: usize,
    n: usize,
    first: usize,
) -> usize
    requires some { 0 < N }
    requires room { RowRoom from to bars n first (length cells.old) }
    ensures { RowUpTo N from to bars n first result cells.old cells.new }
{
    let mut i = first;
    // `while`: the bar where it stops is given.
    while bars - i >= N {
        let lanes: [f64; N] = windows::means_side_by_side(cells, n, from + i);
        store(cells, to + i, lanes);
        i += N;
    }
    i
}

// Writes the means of a row to another row of the same slice. The rows begin at cells `from` and `to` and have `bars`
// cells each; each mean is of n cells, and they are written from bar `first` on. No other cell changes.
pub fn write_means_of_row(
    cells: &mut [f64],
    from: usize,
    to: usize,
    bars: usize,
    n: usize,
    first: usize,
)
    requires { RowRoom from to bars n first (length cells.old) }
    ensures { Writing (to + bars) (means_of_row from to n first cells.old) cells.old
        cells.new }
{
    let fewer = row_side_by_side::<16>(cells, from, to, bars, n, first);
    let few = row_side_by_side::<8>(cells, from, to, bars, n, fewer);
    row_side_by_side::<1>(cells, from, to, bars, n, few);
}
