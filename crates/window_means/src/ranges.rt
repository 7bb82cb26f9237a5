// The mean of each bar, and the highest and the lowest of the last means.
ghost use Rattle.std.specs.Prelude.{◌≡◌, length};
ghost use Rattle.limits.specs.Limits.{Window};
ghost use Rattle.cells.specs.Line.{line};
ghost use Rattle.cells.specs.Written.{Writing};
ghost use Rattle.windows.specs.Window.{mean};
ghost use Rattle.window_means.specs.inner.Ticks.{long_ticks};
ghost use Rattle.checks.specs.inner.Due.{Priced};
ghost use Rattle.window_means.specs.inner.Ranges.{Ranges};

// Writes the mean of each bar's n prices, and the highest and the lowest of the last w means to two rows, where it is
// known whether the prices are whole ticks.
pub fn write_mean_ranges_by(
    series: &[f64],
    n: usize,
    w: usize,
    ticks: bool,
    means: &mut [f64],
    rows: &mut [f64],
)
    requires priced { Priced 2 n series.now (length means.old) (length rows.old) }
    requires window { Window w × (ticks ≡ long_ticks n series.now) }
    ensures { Writing (length series.now) (mean n (line series.now)) means.old
        means.new
        × Ranges n w series.now rows.old rows.new }
{
    let bars = series.len();
    crate::write_means_by(series, n, ticks, means);
    extremes::ranges::write_ranges(&means[..bars], w, rows);
}

// The same where it is not known.
pub fn write_mean_ranges(series: &[f64], n: usize, w: usize, means: &mut [f64], rows: &mut [f64])
    requires priced { Priced 2 n series.now (length means.old) (length rows.old) }
    requires window { Window w }
    ensures { Writing (length series.now) (mean n (line series.now)) means.old
        means.new
        × Ranges n w series.now rows.old rows.new }
{
    let ticks = crate::are_long_ticks(series, n);
    write_mean_ranges_by(series, n, w, ticks, means, rows);
}
