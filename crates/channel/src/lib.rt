// The ultimate channel: a smoothed close, and lines a multiple of the smoothed average true range beside it.
#![tactic(auto)]

ghost use Rattle.std.specs.Prelude.{◌≡◌, [], ◌∷◌, min, length};
ghost use Rattle.cells.specs.Line.{line};
ghost use Rattle.cells.specs.Written.{Writing};
ghost use Rattle.cells.specs.inner.Touched.{Touched};
ghost use Rattle.channel.specs.Channel.{channel_width, channel_middle, channel_upper, channel_lower};
ghost use Rattle.channel.specs.Channel.{channel_answer, ChannelCall};
ghost use Rattle.channel.specs.inner.ChannelRoom.{ChannelRoom};
ghost use Rattle.outer_lines.specs.inner.Lined.{Lined};

use calls::{Answer, Refusal};

// Writes the widths to `upper`. True ranges stand there first, and their averages in `lower`.
pub fn write_widths(
    high: &[f64],
    low: &[f64],
    close: &[f64],
    n: usize,
    first: Option<f64>,
    upper: &mut [f64],
    lower: &mut [f64],
)
    requires { ChannelRoom n first high.now low.now close.now
        (min (length upper.old) (length lower.old)) }
    ensures { Writing (length high.now) (channel_width n first (line high.now)
        (line low.now) (line close.now)) upper.old upper.new
        × Touched (length high.now) lower.old lower.new }
{
    let bars = high.len();
    true_range::write_ranges(high, low, close, 1, first, upper);
    averages_wilder::write_average(&upper[..bars], n, lower);
    smoother::write_smooth(&lower[..bars], n / 2, upper);
}

// The answer of a call, by the lengths of its outputs and of its work slice.
pub fn answer_channel(
    high: &[f64],
    low: &[f64],
    close: &[f64],
    n: usize,
    k: f64,
    first: Option<f64>,
    middle: usize,
    upper: usize,
    lower: usize,
    work: usize,
) -> Answer
    ensures { result ≡ channel_answer high.now low.now close.now n k first
        (middle ∷ upper ∷ lower ∷ []) work }
{
    let bars = high.len();
    checks::check_channel(high, low, close, middle, upper, lower, work)?;
    true_range::check_close(first, Ok(bars))?;
    let long = checks::unless_refused(n <= bars + 1, Refusal::SeriesTooShort, Ok(bars));
    checks::check_parameters(bars, &[k], &[], &[n], long)
}

// Writes the three lines. From period 5 on the outer ones are NaN.
fn write_channel(
    high: &[f64],
    low: &[f64],
    close: &[f64],
    n: usize,
    k: f64,
    first: Option<f64>,
    middle: &mut [f64],
    upper: &mut [f64],
    lower: &mut [f64],
)
    requires { ChannelRoom n first high.now low.now close.now
        (min (length middle.old) (min (length upper.old) (length lower.old))) }
    ensures { Lined (length high.now) (channel_middle n (line close.now))
        (channel_upper n k first (line high.now) (line low.now) (line close.now))
        (channel_lower n k first (line high.now) (line low.now) (line close.now))
        middle.old upper.old lower.old
        middle.new upper.new lower.new }
{
    let bars = high.len();
    smoother::write_smooth(close, n, middle);
    if n < 5 {
        write_widths(high, low, close, n, first, upper, lower);
        outer_lines::write_outer_lines(middle, k, bars, upper, lower);
    } else {
        outer_lines::fill_outer_lines(bars, upper, lower);
    }
}

// The ultimate channel: see `channel_middle`, `channel_upper` and `channel_lower`.
pub fn ultimate_channel(
    high: &[f64],
    low: &[f64],
    close: &[f64],
    period: usize,
    multiplier: f64,
    first: Option<f64>,
    middle: &mut [f64],
    upper: &mut [f64],
    lower: &mut [f64],
    work: &mut [f64],
) -> Answer
    ensures { ChannelCall high.now low.now close.now period multiplier first
        middle.old upper.old lower.old work.old result
        middle.new upper.new lower.new work.new }
{
    let due = answer_channel(
        high,
        low,
        close,
        period,
        multiplier,
        first,
        middle.len(),
        upper.len(),
        lower.len(),
        work.len(),
    );
    if checks::cells_due(due, high.len(), work) {
        write_channel(
            high, low, close, period, multiplier, first, middle, upper, lower,
        );
        cells::clear(work, 8 * high.len());
    }
    due
}
