// The library as C functions: each calls the library's own and turns its answer into numbers. include/tegbalowu.h
// declares them.
#![tactic(auto)]

ghost use Rattle.averages.specs.Sma.{SmaCall};
ghost use Rattle.averages.specs.Ema.{EmaCall};
ghost use Rattle.averages.specs.ExponentialSmoothing.{ExponentialSmoothingCall};
ghost use Rattle.averages_ticks.specs.TickMean.{TickMeanCall};
ghost use Rattle.true_range.specs.TrueRange.{supplied, TrueRangeCall};
ghost use Rattle.smoother.specs.Smoother.{UltimateSmootherCall};
ghost use Rattle.rules_single.specs.Single.{SingleCall};
ghost use Rattle.rules_double.specs.Double.{DoubleCall};
ghost use Rattle.rules_double_ranges.specs.Ranges.{RangesCall};
ghost use Rattle.rules_middle.specs.Middle.{MidCall};
ghost use Rattle.calls.specs.Numbers.{InNumbers};
ghost use Rattle.averages_wilder.specs.WilderRsi.{WilderRsiCall};
ghost use Rattle.rsx.specs.Rsx.{RsxCall};
ghost use Rattle.holt_winters.specs.HoltWinters.{HoltWintersCall};
ghost use Rattle.jurik.specs.Jurik.{JurikCall};
ghost use Rattle.channel.specs.Channel.{ChannelCall};
ghost use Rattle.bands.specs.Bands.{UltimateBandsCall};
ghost use Rattle.oscillator.specs.Oscillator.{OscillatorCall};
ghost use Rattle.rules_bands.specs.Boll.{BollCall};
ghost use Rattle.rules_bands.specs.BollReverse.{BollReverseCall};
ghost use Rattle.rules_rsi.specs.RsiReverse.{RsiReverseCall};
ghost use Rattle.rules_ema.specs.SingleEma.{SingleEmaCall};
ghost use Rattle.rules_mms.specs.Mms.{MmsCall};
ghost use Rattle.rules_tanh.specs.Tanh.{TanhCall};
ghost use Rattle.rules_rank.specs.Rank.{RankCall};
ghost use Rattle.rules_rank.specs.RollingRank.{RollingRankCall};
ghost use Rattle.rules_rank_table.specs.RankTable.{RankTableCall};
ghost use Rattle.rules_triple.specs.Triple.{TripleCall};
ghost use Rattle.basket.specs.Basket.{BasketCall};
ghost use Rattle.sheet_text.specs.SheetText.{SheetCall};

use calls::numbers::CAnswer;

#[unsafe(no_mangle)]
pub extern "C" fn tegbalowu_sma(series: &[f64], n: usize, out: &mut [f64]) -> CAnswer
    ensures { InNumbers (λ a. SmaCall series.now n out.old a out.new) result }
{
    calls::numbers::numbers(averages::sma(series, n, out))
}

#[unsafe(no_mangle)]
pub extern "C" fn tegbalowu_ema(series: &[f64], n: usize, out: &mut [f64]) -> CAnswer
    ensures { InNumbers (λ a. EmaCall series.now n out.old a out.new) result }
{
    calls::numbers::numbers(averages::exponential::ema(series, n, out))
}

#[unsafe(no_mangle)]
pub extern "C" fn tegbalowu_exponential_smoothing(
    series: &[f64],
    alpha: f64,
    out: &mut [f64],
) -> CAnswer
    ensures { InNumbers (λ a. ExponentialSmoothingCall series.now alpha out.old a
        out.new) result }
{
    calls::numbers::numbers(averages::exponential::exponential_smoothing(series, alpha, out))
}

#[unsafe(no_mangle)]
pub extern "C" fn tegbalowu_tick_mean(series: &[f64], n: usize, out: &mut [i64]) -> CAnswer
    ensures { InNumbers (λ a. TickMeanCall series.now n out.old a out.new) result }
{
    calls::numbers::numbers(averages_ticks::tick_mean(series, n, out))
}

#[unsafe(no_mangle)]
pub extern "C" fn tegbalowu_ultimate_smoother(
    price: &[f64],
    period: f64,
    out: &mut [f64],
) -> CAnswer
    ensures { InNumbers (λ a. UltimateSmootherCall price.now period out.old a
        out.new) result }
{
    calls::numbers::numbers(smoother::ultimate_smoother(price, period, out))
}

#[unsafe(no_mangle)]
pub extern "C" fn tegbalowu_true_range(
    high: &[f64],
    low: &[f64],
    close_prev: &[f64],
    close_known: usize,
    close_before: f64,
    out: &mut [f64],
) -> CAnswer
    ensures { InNumbers (λ a. TrueRangeCall high.now low.now close_prev.now
        (supplied close_known close_before) out.old a out.new) result }
{
    let first = true_range::supplied_close(close_known, close_before);
    calls::numbers::numbers(true_range::true_range(high, low, close_prev, first, out))
}

#[unsafe(no_mangle)]
pub extern "C" fn tegbalowu_single_sma_positions(
    series: &[f64],
    n: usize,
    out: &mut [f64],
    work: &mut [f64],
) -> CAnswer
    ensures { InNumbers (λ a. SingleCall series.now n out.old work.old a
        out.new work.new) result }
{
    calls::numbers::numbers(rules::single_sma_positions(series, n, out, work))
}

#[unsafe(no_mangle)]
pub extern "C" fn tegbalowu_double_sma_positions(
    series: &[f64],
    n: usize,
    m: usize,
    out: &mut [f64],
) -> CAnswer
    ensures { InNumbers (λ a. DoubleCall series.now n m out.old a out.new) result }
{
    calls::numbers::numbers(rules::double_sma_positions(series, n, m, out))
}

#[unsafe(no_mangle)]
pub extern "C" fn tegbalowu_double_sma_ranges(
    low: &[f64],
    high: &[f64],
    n: usize,
    m: usize,
    out: &mut [i32],
) -> CAnswer
    ensures { InNumbers (λ a. RangesCall low.now high.now n m out.old a
        out.new) result }
{
    calls::numbers::numbers(rules::double_sma_ranges(low, high, n, m, out))
}

#[unsafe(no_mangle)]
pub extern "C" fn tegbalowu_mid_positions(
    series: &[f64],
    n: usize,
    out: &mut [f64],
    work: &mut [f64],
) -> CAnswer
    ensures { InNumbers (λ a. MidCall series.now n out.old work.old a
        out.new work.new) result }
{
    calls::numbers::numbers(rules::mid_positions(series, n, out, work))
}

#[unsafe(no_mangle)]
pub extern "C" fn tegbalowu_mms_positions(
    series: &[f64],
    timeperiod: usize,
    window: usize,
    out: &mut [f64],
    work: &mut [f64],
) -> CAnswer
    ensures { InNumbers (λ a. MmsCall series.now timeperiod window out.old
        work.old a out.new work.new) result }
{
    calls::numbers::numbers(rules::mms_positions(series, timeperiod, window, out, work))
}

#[unsafe(no_mangle)]
pub extern "C" fn tegbalowu_triple_sma_positions(
    series: &[f64],
    m1: usize,
    m2: usize,
    m3: usize,
    out: &mut [i32],
    work: &mut [f64],
) -> CAnswer
    ensures { InNumbers (λ a. TripleCall series.now m1 m2 m3 out.old
        work.old a out.new work.new) result }
{
    calls::numbers::numbers(rules::triple_sma_positions(series, m1, m2, m3, out, work))
}

#[unsafe(no_mangle)]
pub extern "C" fn tegbalowu_single_ema_positions(
    series: &[f64],
    n: usize,
    out: &mut [f64],
    work: &mut [f64],
) -> CAnswer
    ensures { InNumbers (λ a. SingleEmaCall series.now n out.old work.old a
        out.new work.new) result }
{
    calls::numbers::numbers(rules::single_ema_positions(series, n, out, work))
}

#[unsafe(no_mangle)]
pub extern "C" fn tegbalowu_wilder_rsi(
    series: &[f64],
    n: usize,
    out: &mut [f64],
    work: &mut [f64],
) -> CAnswer
    ensures { InNumbers (λ a. WilderRsiCall series.now n out.old work.old a
        out.new work.new) result }
{
    calls::numbers::numbers(averages_wilder::wilder_rsi(series, n, out, work))
}

#[unsafe(no_mangle)]
pub extern "C" fn tegbalowu_rsx_ss2(
    close: &[f64],
    period: usize,
    smooth_period: usize,
    out: &mut [f64],
    work: &mut [f64],
) -> CAnswer
    ensures { InNumbers (λ a. RsxCall close.now period smooth_period out.old
        work.old a out.new work.new) result }
{
    calls::numbers::numbers(rsx::rsx_ss2(close, period, smooth_period, out, work))
}

#[unsafe(no_mangle)]
pub extern "C" fn tegbalowu_holt_winters(
    series: &[f64],
    season_length: usize,
    alpha: f64,
    beta: f64,
    gamma: f64,
    out: &mut [f64],
    work: &mut [f64],
) -> CAnswer
    ensures { InNumbers (λ a. HoltWintersCall series.now season_length alpha beta gamma
        out.old work.old a out.new work.new) result }
{
    calls::numbers::numbers(holt_winters::holt_winters(
        series,
        season_length,
        alpha,
        beta,
        gamma,
        out,
        work,
    ))
}

#[unsafe(no_mangle)]
pub extern "C" fn tegbalowu_jurik_volty(
    close: &[f64],
    period: usize,
    power: f64,
    out: &mut [f64],
    work: &mut [f64],
) -> CAnswer
    ensures { InNumbers (λ a. JurikCall close.now period power out.old
        work.old a out.new work.new) result }
{
    calls::numbers::numbers(jurik::jurik_volty(close, period, power, out, work))
}

#[unsafe(no_mangle)]
pub extern "C" fn tegbalowu_ultimate_channel(
    high: &[f64],
    low: &[f64],
    close: &[f64],
    period: usize,
    multiplier: f64,
    close_known: usize,
    close_before: f64,
    middle: &mut [f64],
    upper: &mut [f64],
    lower: &mut [f64],
    work: &mut [f64],
) -> CAnswer
    ensures { InNumbers (λ a. ChannelCall high.now low.now close.now period
        multiplier (supplied close_known close_before) middle.old upper.old
        lower.old work.old a middle.new upper.new lower.new
        work.new) result }
{
    let first = true_range::supplied_close(close_known, close_before);
    calls::numbers::numbers(channel::ultimate_channel(
        high, low, close, period, multiplier, first, middle, upper, lower, work,
    ))
}

#[unsafe(no_mangle)]
pub extern "C" fn tegbalowu_ultimate_oscillator(
    high: &[f64],
    low: &[f64],
    close: &[f64],
    short_period: usize,
    med_period: usize,
    long_period: usize,
    close_known: usize,
    close_before: f64,
    out: &mut [f64],
    work: &mut [f64],
) -> CAnswer
    ensures { InNumbers (λ a. OscillatorCall high.now low.now close.now
        short_period med_period long_period (supplied close_known close_before) out.old
        work.old a out.new work.new) result }
{
    let first = true_range::supplied_close(close_known, close_before);
    let answer = oscillator::ultimate_oscillator(
        high,
        low,
        close,
        short_period,
        med_period,
        long_period,
        first,
        out,
        work,
    );
    calls::numbers::numbers(answer)
}

#[unsafe(no_mangle)]
pub extern "C" fn tegbalowu_ultimate_bands(
    close: &[f64],
    period: usize,
    std_multiplier: f64,
    smooth_period: usize,
    middle: &mut [f64],
    upper: &mut [f64],
    lower: &mut [f64],
    work: &mut [f64],
) -> CAnswer
    ensures { InNumbers (λ a. UltimateBandsCall close.now period std_multiplier smooth_period
        middle.old upper.old lower.old work.old a
        middle.new upper.new lower.new work.new) result }
{
    calls::numbers::numbers(bands::ultimate_bands(
        close,
        period,
        std_multiplier,
        smooth_period,
        middle,
        upper,
        lower,
        work,
    ))
}

#[unsafe(no_mangle)]
pub extern "C" fn tegbalowu_tanh_positions(
    series: &[f64],
    n: usize,
    out: &mut [f64],
    work: &mut [f64],
) -> CAnswer
    ensures { InNumbers (λ a. TanhCall series.now n out.old work.old a
        out.new work.new) result }
{
    calls::numbers::numbers(rules::tanh_positions(series, n, out, work))
}

#[unsafe(no_mangle)]
pub extern "C" fn tegbalowu_rank_positions(
    series: &[f64],
    n: usize,
    out: &mut [f64],
    work: &mut [f64],
) -> CAnswer
    ensures { InNumbers (λ a. RankCall series.now n out.old work.old a
        out.new work.new) result }
{
    calls::numbers::numbers(rules::rank_positions(series, n, out, work))
}

#[unsafe(no_mangle)]
pub extern "C" fn tegbalowu_rank_table_positions(
    series: &[f64],
    n: usize,
    rows: &[i32],
    out: &mut [i32],
    work: &mut [f64],
) -> CAnswer
    ensures { InNumbers (λ a. RankTableCall series.now n rows.now out.old
        work.old a out.new work.new) result }
{
    calls::numbers::numbers(rules::rank_table_positions(series, n, rows, out, work))
}

#[unsafe(no_mangle)]
pub extern "C" fn tegbalowu_rolling_rank(
    series: &[f64],
    window: usize,
    out: &mut [u64],
    work: &mut [f64],
) -> CAnswer
    ensures { InNumbers (λ a. RollingRankCall series.now window out.old
        work.old a
        out.new work.new) result }
{
    calls::numbers::numbers(rules::rolling_rank(series, window, out, work))
}

#[unsafe(no_mangle)]
pub extern "C" fn tegbalowu_boll_positions(
    series: &[f64],
    n: usize,
    k: f64,
    out: &mut [i32],
    work: &mut [f64],
) -> CAnswer
    ensures { InNumbers (λ a. BollCall series.now n k out.old work.old a
        out.new work.new) result }
{
    calls::numbers::numbers(rules::boll_positions(series, n, k, out, work))
}

#[unsafe(no_mangle)]
pub extern "C" fn tegbalowu_boll_reverse_positions(
    series: &[f64],
    n: usize,
    k: f64,
    out: &mut [i32],
    work: &mut [f64],
) -> CAnswer
    ensures { InNumbers (λ a. BollReverseCall series.now n k out.old work.old
        a out.new work.new) result }
{
    calls::numbers::numbers(rules::boll_reverse_positions(series, n, k, out, work))
}

#[unsafe(no_mangle)]
pub extern "C" fn tegbalowu_rsi_reverse_positions(
    series: &[f64],
    n: usize,
    rsi_upper: f64,
    rsi_lower: f64,
    rsi_exit: f64,
    out: &mut [i32],
    work: &mut [f64],
) -> CAnswer
    ensures { InNumbers (λ a. RsiReverseCall series.now n rsi_upper rsi_lower rsi_exit
        out.old work.old a out.new work.new) result }
{
    calls::numbers::numbers(rules::rsi_reverse_positions(
        series, n, rsi_upper, rsi_lower, rsi_exit, out, work,
    ))
}

#[unsafe(no_mangle)]
pub extern "C" fn tegbalowu_basket(
    series: &[f64],
    contracts: &[u64],
    weights: &[i64],
    out: &mut [i64],
    work: &mut [f64],
) -> CAnswer
    ensures { InNumbers (λ a. BasketCall series.now contracts.now weights.now
        out.old work.old a out.new work.new) result }
{
    calls::numbers::numbers(basket::basket(series, contracts, weights, out, work))
}

#[unsafe(no_mangle)]
pub extern "C" fn tegbalowu_sheet_text(input: &[u8], out: &mut [u8]) -> CAnswer
    ensures { InNumbers (λ a. SheetCall input.now out.old a out.new) result }
{
    calls::numbers::numbers(sheet_text::sheet_text(input, out))
}
