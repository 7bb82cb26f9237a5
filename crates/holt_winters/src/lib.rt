// Holt-Winters smoothing: a level, a trend and a seasonal part for each bar.
#![tactic(auto)]

ghost use Rattle.std.specs.Prelude.{◌≡◌, ◌+◌, ◌-◌, ◌*◌, ◌<◌, ◌≤◌, length};
ghost use Rattle.cells.specs.Line.{line};
ghost use Rattle.holt_winters.specs.HoltWinters.{next_fit, total, holt_winters_answer, HoltWintersCall};
ghost use Rattle.windows.specs.Window.{mean};
ghost use Rattle.holt_winters.specs.inner.Stages.{SeasonRoom, First, Smoothed};

use calls::Answer;

// How much a new price weighs in the level, in the trend and in the seasonal part.
#[derive(Clone, Copy)]
pub struct Weights {
    pub alpha: f64,
    pub beta: f64,
    pub gamma: f64,
}

// What is known at a bar.
#[derive(Clone, Copy)]
pub struct Fit {
    pub level: f64,
    pub trend: f64,
    pub season: f64,
}

// A later bar, from the bar before it and the seasonal part one season before it.
pub fn next(w: Weights, last: Fit, old: f64, price: f64) -> Fit
    ensures { result ≡ next_fit w last old price }
{
    let level = averages::blend::blended(w.alpha, last.level + last.trend, price - old);
    let trend = averages::blend::blended(w.beta, last.trend, level - last.level);
    let season = averages::blend::blended(w.gamma, old, price - level);
    Fit {
        level,
        trend,
        season,
    }
}

// The seasonal part one season of m bars before bar i. The last of the eight rows of `work` has the seasonal parts.
pub fn season_before(work: &[f64], bars: usize, m: usize, i: usize) -> f64
    requires { (0 < m) × (m ≤ i) × (i < bars) × (8 * bars ≤ length work.now) }
    ensures { result ≡ line work.now (7 * bars + (i - m)) }
{
    work[7 * bars + (i - m)]
}

// The cell of a bar.
fn cell(fit: Fit) -> f64
    ensures { result ≡ total fit }
{
    fit.level + fit.trend + fit.season
}

// Copies the first season's prices, and keeps their seasonal parts in the last row of `work`: each price less the mean.
fn write_first(series: &[f64], m: usize, average: f64, out: &mut [f64], work: &mut [f64])
    requires { SeasonRoom m series.now (length out.old) (length work.old) }
    ensures { First average (line series.now) (length series.now) m out.old
        out.new work.old work.new }
{
    let bars = series.len();
    for i in 0..m {
        out[i] = series[i];
        cells::rows::put(work, bars, i, series[i] - average);
    }
}

// Writes the cells after the first season. Their seasonal parts follow those of the first season in `work`.
fn write_later(
    series: &[f64],
    m: usize,
    w: Weights,
    average: f64,
    out: &mut [f64],
    work: &mut [f64],
)
    requires season_room { SeasonRoom m series.now (length out.old) (length work.old) }
    requires average_value { (average ≡ mean m (line series.now) (m - 1)) × First average (line series.now)
        (length series.now) m out.old out.old work.old work.old }
    ensures { Smoothed m w (line series.now) (length series.now)
        (length series.now) out.old out.new work.old work.new }
{
    let bars = series.len();
    let mut last = Fit {
        level: average,
        trend: 0.0,
        season: series[m - 1] - average,
    };
    for i in m..bars {
        let old = season_before(work, bars, m, i);
        last = next(w, last, old, series[i]);
        out[i] = cell(last);
        cells::rows::put(work, bars, i, last.season);
    }
}

// Writes each bar's cell. The seven rows before the last one of `work` are cleared meanwhile.
fn write_smoothed(series: &[f64], m: usize, w: Weights, out: &mut [f64], work: &mut [f64])
    requires { SeasonRoom m series.now (length out.old) (length work.old) }
    ensures { Smoothed m w (line series.now) (length series.now)
        (length series.now) out.old out.new work.old work.new }
{
    let average = windows::mean_at(series, m, m - 1);
    write_first(series, m, average, out, work);
    write_later(series, m, w, average, out, work);
}

// The answer of a call: the season is a window, and not longer than the series.
fn answer_holt_winters(series: &[f64], m: usize, w: Weights, out: usize, work: usize) -> Answer
    ensures { result ≡ holt_winters_answer series.now m w out work }
{
    let bars = series.len();
    checks::check_with_work(series, out, work)?;
    let whole = checks::empty_if(bars < m, Ok(bars));
    checks::check_parameters(bars, &[w.alpha, w.beta, w.gamma], &[m], &[], whole)
}

// Additive Holt-Winters smoothing: see `holt_winters_line`.
pub fn holt_winters(
    series: &[f64],
    season_length: usize,
    alpha: f64,
    beta: f64,
    gamma: f64,
    out: &mut [f64],
    work: &mut [f64],
) -> Answer
    ensures { HoltWintersCall series.now season_length alpha beta gamma out.old
        work.old result out.new work.new }
{
    let w = Weights { alpha, beta, gamma };
    let due = answer_holt_winters(series, season_length, w, out.len(), work.len());
    if checks::cells_due(due, series.len(), work) {
        write_smoothed(series, season_length, w, out, work);
        cells::rows::clear_last(work, series.len());
    }
    due
}
