// Sums and means of windows, each summed afresh from left to right: of one bar, and of some bars side by side.
// `sliding` has the means by running sums.
#![tactic(auto)]

pub mod sliding;

ghost use Rattle.std.specs.Prelude.{◌≡◌, ◌+◌, ◌≤◌, length, map};
ghost use Rattle.cells.specs.Line.{line};
ghost use Rattle.windows.specs.Window.{sum_from, window_sum, over, mean};
ghost use Rattle.windows.specs.inner.Windows.{Windows, WindowRoom};
ghost use Rattle.windows.specs.inner.Lanes.{each_plus, LanesOf};
ghost use Rattle.limits.specs.Limits.{longest_window};
ghost use Rattle.cells.specs.Written.{Writing};
ghost use Rattle.windows.specs.inner.RunningSums.{Opening, running_sums};

// The sum with `count` prices more, from `at` on, each added to what was there before it.
pub fn sum_more(sum: f64, series: &[f64], at: usize, count: usize) -> f64
    requires { at + count ≤ length series.now }
    ensures { result ≡ sum_from sum (line series.now) at count }
{
    let mut more = sum;
    for x in &series[at..at + count] {
        more += *x;
    }
    more
}

// The sum of the n prices up to bar i.
pub fn sum_at(series: &[f64], n: usize, i: usize) -> f64
    requires { Windows n i 1 (length series.now) }
    ensures { result ≡ window_sum n (line series.now) i }
{
    sum_more(-0.0, series, i + 1 - n, n)
}

// Each lane with one more price: the N prices from `at` on.
pub fn added<const N: usize>(mut sums: [f64; N], series: &[f64], at: usize) -> [f64; N]
    requires { at + N ≤ length series.now }
    ensures { result ≡ each_plus (line series.now) at sums.entry }
{
    for lane in 0..N {
        sums[lane] += series[at + lane];
    }
    sums
}

// The sums of the n prices up to each of the N bars from i on, each in a lane of its own.
pub fn sums_side_by_side<const N: usize>(series: &[f64], n: usize, i: usize) -> [f64; N]
    requires { Windows n i N (length series.now) }
    ensures { LanesOf N (window_sum n (line series.now)) i result }
{
    let at = i + 1 - n;
    let mut sums = [-0.0; N];
    for k in 0..n {
        sums = added(sums, series, at + k);
    }
    sums
}

// Each lane divided by n.
pub fn divided<const N: usize>(mut sums: [f64; N], n: usize) -> [f64; N]
    requires { n ≤ longest_window }
    ensures { result ≡ map (over n) sums.entry }
{
    let count = n as f64;
    for sum in &mut sums {
        *sum /= count;
    }
    sums
}

// The mean of the n prices up to bar i.
pub fn mean_at(series: &[f64], n: usize, i: usize) -> f64
    requires { Windows n i 1 (length series.now) }
    ensures { result ≡ mean n (line series.now) i }
{
    sum_at(series, n, i) / (n as f64)
}

// The means of the n prices up to each of the N bars from i on.
pub fn means_side_by_side<const N: usize>(series: &[f64], n: usize, i: usize) -> [f64; N]
    requires { Windows n i N (length series.now) }
    ensures { LanesOf N (mean n (line series.now)) i result }
{
    divided(sums_side_by_side(series, n, i), n)
}

// Writes the running sums from bar n - 1 on, where the first n cells are summed afresh.
fn slide_sums(series: &[f64], n: usize, sums: &mut [f64])
    requires { Opening n series.now sums.old }
    ensures { Writing (length series.now) (running_sums n (line series.now))
        sums.old sums.new }
{
    let mut sum = sum_at(series, n, n - 1);
    sums[n - 1] = sum;
    for i in n..series.len() {
        sum = sum + (series[i] - series[i - n]);
        sums[i] = sum;
    }
}

// Writes the running sum of each bar's window, and 0.0 before the first whole one.
pub fn write_sums(series: &[f64], n: usize, sums: &mut [f64])
    requires { WindowRoom n (length series.now) (length sums.old) }
    ensures { Writing (length series.now) (running_sums n (line series.now))
        sums.old sums.new }
{
    let first = cells::fill_lead(sums, n - 1, series.len(), 0.0);
    if first < series.len() {
        slide_sums(series, n, sums);
    }
}
