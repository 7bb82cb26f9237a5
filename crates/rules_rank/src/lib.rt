// The ranks: how the cells of `rank_positions` are written, and `rolling_rank` (`rolling`).
#![tactic(auto)]

pub mod rolling;

ghost use Rattle.std.specs.Prelude.{◌≡◌, ◌+◌, ◌-◌, ◌<◌, ◌≤◌, ◌*◌, length};
ghost use Rattle.limits.specs.Limits.{longest_window, Window};
ghost use Rattle.cells.specs.Line.{line};
ghost use Rattle.cells.specs.Written.{Writing};
ghost use Rattle.rules_rank.specs.Rank.{whole_rank, rank_of, rank_line};
ghost use Rattle.rules_rank.specs.inner.Place.{counted_place};
ghost use Rattle.cells.specs.inner.Touched.{Touched};
ghost use Rattle.checks.specs.inner.Due.{Priced};
ghost use Rattle.rules_rank.specs.inner.Rows.{RankRows};

// The whole hundredths, from -100 to 100, for `below` of `others`; NaN where there are no others.
pub fn whole_rank(below: usize, others: usize) -> f64
    requires { (below ≤ longest_window) × (others ≤ longest_window) }
    ensures { result ≡ whole_rank below others }
{
    let share = (below as f64) / (others as f64);
    rounding::round_to_whole((share - 0.5) * 2.0 * 100.0)
}

// Writes the position for each number of means below, of n - 1. It is not one with that of rules_rank_table: the two
// share only the loop, and a closure in it would be no plainer.
pub fn write_positions(n: usize, positions: &mut [f64])
    requires { Window n × (n ≤ length positions.old) }
    ensures { Writing n (λ c. rank_of c (n - 1)) positions.old positions.new }
{
    for below in 0..n {
        positions[below] = whole_rank(below, n - 1) / 100.0;
    }
}

// A value less than this far away takes the present one's place.
const NEAR: f64 = 1e-8;

// The place of bar i in its window.
pub fn place_at(series: &[f64], window: usize, i: usize) -> u64
    requires { (0 < window) × (window ≤ i + 1) × (i < length series.now) }
    ensures { result ≡ counted_place window (line series.now) i }
{
    let below = ranks::count_below_by(series, i + 1 - window, window - 1, series[i], NEAR);
    below as u64 + 1
}

// Writes each bar's position: a count of means picks it. The rows of `work` are the means and the positions.
fn write_by_count(series: &[f64], work: &[f64], n: usize, out: &mut [f64])
    requires rank_rows { RankRows n series.now work.now }
    requires series_in_bounds { length series.now ≤ length out.old }
    ensures { Writing (length series.now) (rank_line n (line series.now)) out.old
        out.new }
{
    let bars = series.len();
    let first = cells::fill_lead(out, 2 * n - 2, bars, 0.0);
    for i in first..bars {
        let below = ranks::count_below(work, i + 1 - n, n - 1, work[i]);
        out[i] = work[bars + below];
    }
}

// Writes each bar's position. The first two rows of `work` are used.
pub fn write_rank(series: &[f64], n: usize, out: &mut [f64], work: &mut [f64])
    requires { Priced 2 n series.now (length out.old) (length work.old) }
    ensures { Writing (length series.now) (rank_line n (line series.now)) out.old
        out.new
        × Touched (2 * length series.now) work.old work.new }
{
    let bars = series.len();
    if bars > 2 * n - 2 {
        window_means::write_means_of_prices(series, n, work);
        write_positions(n, &mut work[bars..]);
        write_by_count(series, work, n, out);
    } else {
        cells::fill(out, bars, 0.0);
    }
}
