// Means by running sums of any prices.
ghost use Rattle.std.specs.Prelude.{length};
ghost use Rattle.cells.specs.Line.{line};
ghost use Rattle.cells.specs.Written.{Writing};
ghost use Rattle.windows.specs.inner.Windows.{WindowRoom};
ghost use Rattle.windows.specs.inner.Means.{running_mean, on_from, running_means, Summed};

// Writes the running means from bar n on, where `first` is the sum of the first n bars: two bars a turn, so that two
// quotients are taken at a time. The new price less the old one is added to the sum in one step. No other cell changes.
pub fn slide_means(series: &[f64], n: usize, first: f64, means: &mut [f64])
    requires { Summed series.now n first (length means.old) }
    ensures { Writing (length series.now) (on_from n (running_mean n (line series.now))
        means.old) means.old means.new }
{
    let count = n as f64;
    let mut sum = first;
    let mut i = n;
    // `while`: whether a bar is left over after the pairs is seen from `i`.
    while i + 2 <= series.len() {
        let next = sum + (series[i] - series[i - n]);
        sum = next + (series[i + 1] - series[i + 1 - n]);
        means[i] = next / count;
        means[i + 1] = sum / count;
        i += 2;
    }
    if i < series.len() {
        means[i] = (sum + (series[i] - series[i - n])) / count;
    }
}

// Writes each bar's running sum over n, which is 0.0 before the first whole window.
pub fn write_running_means(series: &[f64], n: usize, means: &mut [f64])
    requires { WindowRoom n (length series.now) (length means.old) }
    ensures { Writing (length series.now) (running_means n (line series.now))
        means.old means.new }
{
    let lead = cells::fill_lead(means, n - 1, series.len(), 0.0);
    if lead < series.len() {
        let first = crate::sum_at(series, n, n - 1);
        means[n - 1] = first / (n as f64);
        slide_means(series, n, first, means);
    }
}
