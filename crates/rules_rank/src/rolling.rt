// The answer of `rolling_rank`, and how its cells are written.
ghost use Rattle.std.specs.Prelude.{◌≡◌, true, ◌<◌, ◌≤◌, length};
ghost use Rattle.cells.specs.Line.{line};
ghost use Rattle.cells.specs.Written.{Writing};
ghost use Rattle.values.specs.Accepted.{accepted, all};
ghost use Rattle.rules_rank.specs.RollingRank.{rolling_rank_answer, rolling_rank_line};

use calls::{Answer, Refusal};
use limits::LONGEST_WINDOW;

// The answer of a call of `rolling_rank`.
pub fn answer_rolling_rank(series: &[f64], window: usize, out: usize, work: usize) -> Answer
    ensures { result ≡ rolling_rank_answer series.now window out work }
{
    let bars = series.len();
    checks::check_with_work(series, out, work)?;
    checks::unless_refused(window <= LONGEST_WINDOW, Refusal::WindowTooLong, Ok(bars))
}

// Writes each bar's rank in a window of at least one bar.
fn write_places(series: &[f64], window: usize, out: &mut [u64])
    requires { (0 < window) × (length series.now ≤ length out.old) × (all accepted series.now ≡ true) }
    ensures { Writing (length series.now) (rolling_rank_line window (line series.now))
        out.old out.new }
{
    let bars = series.len();
    let first = cells::smaller(window - 1, bars);
    cells::fill(out, first, 0);
    for i in first..bars {
        out[i] = crate::place_at(series, window, i);
    }
}

// Writes each bar's rank, and 0 where there is none: before the first whole window, and at every bar for a window of 0.
pub fn write_rolling_rank(series: &[f64], window: usize, out: &mut [u64])
    requires { (length series.now ≤ length out.old) × (all accepted series.now ≡ true) }
    ensures { Writing (length series.now) (rolling_rank_line window (line series.now))
        out.old out.new }
{
    if window > 0 {
        write_places(series, window, out);
    } else {
        cells::fill(out, series.len(), 0);
    }
}
