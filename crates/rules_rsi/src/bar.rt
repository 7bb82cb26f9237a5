// The rule against the relative strength index: the index of one bar.
ghost use Rattle.std.specs.Prelude.{◌≡◌, ◌<◌, length};
ghost use Rattle.limits.specs.Limits.{Window};
ghost use Rattle.cells.specs.Line.{line};
ghost use Rattle.windows.specs.Window.{mean};
ghost use Rattle.rules_rsi.specs.RsiReverse.{changes_before, rsi_before};
ghost use Rattle.rules_rsi.specs.inner.Stages.{Changed, index_by};

// The index of two sums of changes: 100 where there are no losses.
pub fn index_by(up: f64, down: f64, count: f64) -> f64
    ensures { result ≡ index_by count up down }
{
    if down == 0.0 {
        100.0
    } else {
        changes::strength(up / count, down / count)
    }
}

// How many changes of means there are at the n bars before bar i.
fn changes_before(n: usize, i: usize) -> usize
    ensures { result ≡ changes_before n i }
{
    i.saturating_sub(n).min(n)
}

// The index at bar i: NaN where there are fewer than n - 1 changes, and 100 where none are needed.
pub fn index_at(series: &[f64], n: usize, i: usize, work: &[f64]) -> f64
    requires window { Window n × (i < length series.now) }
    requires changed { Changed n series.now work.now }
    ensures { result ≡ rsi_before n (mean n (line series.now)) i }
{
    let count = changes_before(n, i);
    if count < n - 1 {
        return f64::NAN;
    }
    if count == 0 {
        return 100.0;
    }
    let bars = series.len();
    let up = windows::sum_at(work, count, bars + i - 1);
    let down = windows::sum_at(work, count, 2 * bars + i - 1);
    index_by(up, down, count as f64)
}
