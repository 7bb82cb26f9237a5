// The triple rule: one bar of it, its answer, and how its cells are written.
#![tactic(auto)]

ghost use Rattle.std.specs.Prelude.{◌≡◌, ◌+◌, ◌-◌, ◌≤◌, ◌*◌, length};
ghost use Rattle.limits.specs.Limits.{Window};
ghost use Rattle.cells.specs.inner.Leads.{Led};
ghost use Rattle.rules_held.specs.Held.{flat};
ghost use Rattle.rules_triple.specs.Triple.{trend_of, triple_answer, triple_line};
ghost use Rattle.cells.specs.Line.{line};
ghost use Rattle.cells.specs.Written.{Writing};
ghost use Rattle.cells.specs.inner.Touched.{Touched};
ghost use Rattle.checks.specs.inner.Due.{Priced};
ghost use Rattle.rules_triple.specs.inner.Stages.{Rising, Averages};

use calls::{Answer, Refusal};

// 1 if the mean is above ma3 and ma1 above ma2, -1 if both are below, else 0.
pub fn trend(average: f64, ma1: f64, ma2: f64, ma3: f64) -> i32
    ensures { result ≡ trend_of average ma1 ma2 ma3 }
{
    let above = (average > ma3) & (ma1 > ma2);
    let below = (average < ma3) & (ma1 < ma2);
    if above {
        1
    } else if below {
        -1
    } else {
        0
    }
}

// The answer of `triple_sma_positions`.
pub fn answer_triple(
    series: &[f64],
    m1: usize,
    m2: usize,
    m3: usize,
    out: usize,
    work: usize,
) -> Answer
    ensures { result ≡ triple_answer series.now m1 m2 m3 out work }
{
    let bars = series.len();
    checks::check_with_work(series, out, work)?;
    let rising = (m1 < m2) & (m2 < m3);
    let order = checks::unless_refused(rising, Refusal::WindowsOutOfOrder, Ok(bars));
    let long = checks::unless_refused(m3 <= bars, Refusal::SeriesTooShort, order);
    checks::check_windows(bars, &[m1, m2, m3], long)
}

// Writes flat positions before bar m1 + m3 - 2, from which on all averages are there, and gives the bar after them.
pub fn fill_before_trends(out: &mut [i32], m1: usize, m3: usize, bars: usize) -> usize
    requires { Window m1 × Window m3 × (bars ≤ length out.old) }
    ensures { Led (m1 + m3 - 2) bars flat result out.old out.new }
{
    rules_held::fill_flat(out, m1 + m3 - 2, bars)
}

// Writes the means of m1 prices, and of these means those over m1, m2 and m3, to four rows. The windows are no struct:
// only two private functions take all three.
fn write_averages(series: &[f64], m1: usize, m2: usize, m3: usize, work: &mut [f64])
    requires { Priced 4 m1 series.now (length series.now) (length work.old) × Rising m1 m2 m3 }
    ensures { Averages m1 m2 m3 series.now work.new
        × Touched (4 * length series.now) work.old work.new }
{
    let bars = series.len();
    let first = (m1 + m3 - 2).min(bars);
    window_means::write_means_of_prices(series, m1, work);
    window_means::write_means_of_row(work, 0, bars, bars, m1, first);
    window_means::write_means_of_row(work, 0, 2 * bars, bars, m2, first);
    window_means::write_means_of_row(work, 0, 3 * bars, bars, m3, first);
}

// Writes each bar's position from the four rows.
fn write_trends(series: &[f64], m1: usize, m2: usize, m3: usize, out: &mut [i32], work: &[f64])
    requires rising { Rising m1 m2 m3 × (length series.now ≤ length out.old) }
    requires averages { Averages m1 m2 m3 series.now work.now }
    ensures { Writing (length series.now) (triple_line m1 m2 m3 (line series.now))
        out.old out.new }
{
    let bars = series.len();
    let first = fill_before_trends(out, m1, m3, bars);
    for i in first..bars {
        out[i] = trend(
            work[i],
            work[bars + i],
            work[2 * bars + i],
            work[3 * bars + i],
        );
    }
}

// Writes each bar's position. The first four rows of `work` are used.
pub fn write_triple(
    series: &[f64],
    m1: usize,
    m2: usize,
    m3: usize,
    out: &mut [i32],
    work: &mut [f64],
)
    requires priced { Priced 4 m1 series.now (length out.old) (length work.old) }
    requires rising { Rising m1 m2 m3 }
    ensures { Writing (length series.now) (triple_line m1 m2 m3 (line series.now))
        out.old out.new
        × Touched (4 * length series.now) work.old work.new }
{
    write_averages(series, m1, m2, m3, work);
    write_trends(series, m1, m2, m3, out, work);
}
