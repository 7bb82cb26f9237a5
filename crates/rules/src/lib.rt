// The position rules. Each function answers, and where cells are due it runs the rule's stage and clears the work
// slice. One function for all, given the stage as a closure, would borrow the outputs in it and say in its contract
// what they hold: no plainer.
#![tactic(auto)]

ghost use Rattle.std.specs.Prelude.{◌*◌};
ghost use Rattle.rules_single.specs.Single.{SingleCall};
ghost use Rattle.rules_middle.specs.Middle.{MidCall};
ghost use Rattle.rules_double.specs.Double.{DoubleCall};
ghost use Rattle.rules_double_ranges.specs.Ranges.{RangesCall};
ghost use Rattle.rules_bands.specs.Boll.{BollCall};
ghost use Rattle.rules_bands.specs.BollReverse.{BollReverseCall};
ghost use Rattle.rules_bands.specs.inner.Stages.{BandsCall};
ghost use Rattle.rules_rsi.specs.RsiReverse.{RsiReverseCall};
ghost use Rattle.rules_ema.specs.SingleEma.{SingleEmaCall};
ghost use Rattle.rules_mms.specs.Mms.{MmsCall};
ghost use Rattle.rules_rank.specs.Rank.{RankCall};
ghost use Rattle.rules_rank.specs.RollingRank.{RollingRankCall};
ghost use Rattle.rules_rank_table.specs.RankTable.{RankTableCall};
ghost use Rattle.rules_triple.specs.Triple.{TripleCall};
ghost use Rattle.rules_tanh.specs.Tanh.{TanhCall};

use calls::Answer;

// One average: the sign of price less the doubly averaged price, from bar 2n - 2 on.
pub fn single_sma_positions(series: &[f64], n: usize, out: &mut [f64], work: &mut [f64]) -> Answer
    ensures { SingleCall series.now n out.old work.old result out.new
        work.new }
{
    let due = checks::answer_window_with_work(series, n, out.len(), work.len());
    if checks::cells_due(due, series.len(), work) {
        rules_single::write_single(series, n, out, work);
        cells::clear(work, 8 * series.len());
    }
    due
}

// The middle: the sign of the mean less the middle of the last n means, from bar 2n - 2 on.
pub fn mid_positions(series: &[f64], n: usize, out: &mut [f64], work: &mut [f64]) -> Answer
    ensures { MidCall series.now n out.old work.old result out.new
        work.new }
{
    let due = checks::answer_window_with_work(series, n, out.len(), work.len());
    if checks::cells_due(due, series.len(), work) {
        rules_middle::write_mid(series, n, out, work);
        cells::clear(work, 8 * series.len());
    }
    due
}

// Double: the sign of the average of n prices less that of m prices, from bar m - 1 on.
pub fn double_sma_positions(series: &[f64], n: usize, m: usize, out: &mut [f64]) -> Answer
    ensures { DoubleCall series.now n m out.old result out.new }
{
    if rules_double::has_tick_cells(series, n, m, out.len()) {
        rules_double::write_double_of_ticks(series, n, m, out);
        return Ok(series.len());
    }
    let due = rules_double::answer_double(series, n, m, out.len());
    if calls::has_cells(due) {
        rules_double::write_double(series, n, m, out);
    }
    due
}

// Double on prices known only within a range: 1 where every series of whole ticks from low to high gives 1, -1 where
// every one gives -1, and 2 where both occur, from bar m - 1 on.
pub fn double_sma_ranges(low: &[f64], high: &[f64], n: usize, m: usize, out: &mut [i32]) -> Answer
    ensures { RangesCall low.now high.now n m out.old result out.new }
{
    let due = rules_double_ranges::answer_ranges(low, high, n, m, out.len());
    if calls::has_cells(due) {
        rules_double_ranges::write_ranges(low, high, n, m, out);
    }
    due
}

// Min-max scaling: where the mean stands between the lowest and the highest of the last means, from -1 to 1, from bar
// timeperiod + window - 2 on.
pub fn mms_positions(
    series: &[f64],
    timeperiod: usize,
    window: usize,
    out: &mut [f64],
    work: &mut [f64],
) -> Answer
    ensures { MmsCall series.now timeperiod window out.old work.old result
        out.new work.new }
{
    let due = rules_mms::answer_mms(series, timeperiod, window, out.len(), work.len());
    if checks::cells_due(due, series.len(), work) {
        rules_mms::write_mms(series, timeperiod, window, out, work);
        cells::clear(work, 8 * series.len());
    }
    due
}

// Triple: 1 where the mean is above its long average and its short average above the middle one, -1 where both are
// below, from bar m1 + m3 - 2 on.
pub fn triple_sma_positions(
    series: &[f64],
    m1: usize,
    m2: usize,
    m3: usize,
    out: &mut [i32],
    work: &mut [f64],
) -> Answer
    ensures { TripleCall series.now m1 m2 m3 out.old work.old result
        out.new work.new }
{
    let due = rules_triple::answer_triple(series, m1, m2, m3, out.len(), work.len());
    if checks::cells_due(due, series.len(), work) {
        rules_triple::write_triple(series, m1, m2, m3, out, work);
        cells::clear(work, 8 * series.len());
    }
    due
}

// Exponential: the sign of price less the exponential average of the means, from n - 1 bars after the first mean that
// is not 0 on.
pub fn single_ema_positions(series: &[f64], n: usize, out: &mut [f64], work: &mut [f64]) -> Answer
    ensures { SingleEmaCall series.now n out.old work.old result out.new
        work.new }
{
    let due = checks::answer_window_with_work(series, n, out.len(), work.len());
    if checks::cells_due(due, series.len(), work) {
        rules_ema::write_ema(series, n, out, work);
    }
    due
}

// Tanh: how many deviations the mean lies above the mean of the last n means, through tanh, rounded to hundredths, from
// bar 2n - 2 on.
pub fn tanh_positions(series: &[f64], n: usize, out: &mut [f64], work: &mut [f64]) -> Answer
    ensures { TanhCall series.now n out.old work.old result out.new
        work.new }
{
    let due = checks::answer_window_with_work(series, n, out.len(), work.len());
    if checks::cells_due(due, series.len(), work) {
        rules_tanh::write_tanh(series, n, out, work);
        cells::clear(work, 8 * series.len());
    }
    due
}

// Rank: how many of the n - 1 means before the present one lie below it, moved to -1 .. 1 and rounded to hundredths,
// from bar 2n - 2 on.
pub fn rank_positions(series: &[f64], n: usize, out: &mut [f64], work: &mut [f64]) -> Answer
    ensures { RankCall series.now n out.old work.old result out.new
        work.new }
{
    let due = checks::answer_window_with_work(series, n, out.len(), work.len());
    if checks::cells_due(due, series.len(), work) {
        rules_rank::write_rank(series, n, out, work);
        cells::clear(work, 8 * series.len());
    }
    due
}

// Each rank looked up in a desk's table, from bar 2n - 2 on. A row is three of `rows`: from, to and the position.
pub fn rank_table_positions(
    series: &[f64],
    n: usize,
    rows: &[i32],
    out: &mut [i32],
    work: &mut [f64],
) -> Answer
    ensures { RankTableCall series.now n rows.now out.old work.old result
        out.new work.new }
{
    let due = rules_rank_table::answer_rank_table(series, n, rows, out.len(), work.len());
    if checks::cells_due(due, series.len(), work) {
        rules_rank_table::write_rank_table(series, n, rows, out, work);
        cells::clear(work, 8 * series.len());
    }
    due
}

// Rolling rank: the place, from 1, in the sorted window of the first value less than 1e-8 away from the present one,
// from bar window - 1 on; 0 before it, and at every bar for a window of none.
pub fn rolling_rank(series: &[f64], window: usize, out: &mut [u64], work: &mut [f64]) -> Answer
    ensures { RollingRankCall series.now window out.old work.old result
        out.new work.new }
{
    let due = rules_rank::rolling::answer_rolling_rank(series, window, out.len(), work.len());
    if checks::cells_due(due, series.len(), work) {
        rules_rank::rolling::write_rolling_rank(series, window, out);
        cells::clear(work, 8 * series.len());
    }
    due
}

// Either rule of Bollinger's bands.
fn band_positions(
    series: &[f64],
    reverse: bool,
    n: usize,
    k: f64,
    out: &mut [i32],
    work: &mut [f64],
) -> Answer
    ensures { BandsCall reverse series.now n k out.old work.old result
        out.new work.new }
{
    let due = checks::answer_numbers_and_window(series, &[k], n, out.len(), work.len());
    if checks::cells_due(due, series.len(), work) {
        rules_bands::write_bands(series, reverse, n, k, out, work);
        cells::clear(work, 8 * series.len());
    }
    due
}

// Bollinger's bands: +1 above and -1 below the bands of the means, from bar 2n - 2 on.
pub fn boll_positions(series: &[f64], n: usize, k: f64, out: &mut [i32], work: &mut [f64]) -> Answer
    ensures { BollCall series.now n k out.old work.old result out.new
        work.new }
{
    band_positions(series, false, n, k, out, work)
}

// Against Bollinger's bands: a position is opened beyond a band of the means, and held to the middle.
pub fn boll_reverse_positions(
    series: &[f64],
    n: usize,
    k: f64,
    out: &mut [i32],
    work: &mut [f64],
) -> Answer
    ensures { BollReverseCall series.now n k out.old work.old result
        out.new work.new }
{
    band_positions(series, true, n, k, out, work)
}

// Against the relative strength index of the means: a position is opened beyond a level, and held to the exit level.
pub fn rsi_reverse_positions(
    series: &[f64],
    n: usize,
    rsi_upper: f64,
    rsi_lower: f64,
    rsi_exit: f64,
    out: &mut [i32],
    work: &mut [f64],
) -> Answer
    ensures { RsiReverseCall series.now n rsi_upper rsi_lower rsi_exit out.old
        work.old result out.new work.new }
{
    let levels = [rsi_upper, rsi_lower, rsi_exit];
    let due = checks::answer_numbers_and_window(series, &levels, n, out.len(), work.len());
    if checks::cells_due(due, series.len(), work) {
        rules_rsi::write_rsi_reverse(series, n, rsi_upper, rsi_lower, rsi_exit, out, work);
        cells::clear(work, 8 * series.len());
    }
    due
}
