// A request's answer: the call of its rule, and its text.
ghost use Rattle.std.specs.Prelude.{◌≡◌, true, false, List, ◌≤◌, ◌+◌, ◌*◌, length, take, Float};
ghost use Rattle.sheet_lines.specs.Header.{most_bars};
ghost use Rattle.sheet_lines.specs.Printed.{head_bytes, position_bytes};
ghost use Rattle.sheet_requests.specs.Answer.{work_cells, RequestCall};
ghost use Rattle.sheet_requests.specs.Counts.{is_desk};
ghost use Rattle.sheet_requests.specs.Sheet.{completed};
ghost use Rattle.sheet_requests.specs.inner.Place.{text_owed, answer_if_complete, PricesFit, Stepped, SteppedInRoom};
ghost use Rattle.sheet_requests.specs.inner.Lent.{Lent};

use crate::Counts;
use crate::blocks::{Place, Sheet, Stage};
use calls::Answer;
use sheet_lines::Request;
use sheet_lines::rule::Rule;
use sheet_lines::text::NO_SUCH_DESK;

// Answers the request by its rule, on the first prices of the series; the positions are in `out`.
pub fn answer(request: Request, series: &[f64], out: &mut [f64], work: &mut [f64]) -> Answer
    requires { (request.bars ≤ length series.now)
        × (length out.old ≡ most_bars) × (length work.old ≡ work_cells) }
    ensures { RequestCall request (take request.bars series.now)
        out.old work.old result out.new work.new }
{
    let prices = &series[..request.bars];
    match Rule::of_number(request.rule) {
        Some(Rule::Single) => rules::single_sma_positions(prices, request.n, out, work),
        Some(Rule::Double) => rules::double_sma_positions(prices, request.n, request.m, out),
        // any other number is answered as the middle rule, as the definition says
        Some(Rule::Middle) | None => rules::mid_positions(prices, request.n, out, work),
    }
}

// Answers a request of one of the desks by its rule, and prints the answer. The slices stay parameters of their own:
// the contracts say of each by itself what a call leaves in it.
fn answer_by_rule(
    request: Request,
    counts: Counts,
    at: usize,
    series: &[f64],
    out: &mut [f64],
    work: &mut [f64],
    text: &mut [u8],
    filled: usize,
) -> Place
    requires { (is_desk request.desk ≡ true) × (request.bars ≤ most_bars) × Lent series.now out.old work.old
        × (filled + head_bytes + position_bytes * request.bars ≤ length text.old) }
    ensures { Stepped (completed counts request (take request.bars series.now))
        series.now at filled result text.old text.new
        × (result.sheet.stage ≡ Stage.Waiting) × (result.filled ≤ filled + head_bytes + position_bytes * request.bars)
        × (work.new ≡ work.old) }
{
    let given = answer(request, series, out, work);
    let end = sheet_lines::text::print_answer(text, filled, request, given, out);
    Place {
        sheet: Sheet {
            stage: Stage::Waiting,
            counts: counts.after(request, given),
        },
        at,
        filled: end,
    }
}

// Prints that the request's desk is none of the desks.
fn refuse_desk(request: Request, counts: Counts, at: usize, text: &mut [u8], filled: usize) -> Place
    requires { (is_desk request.desk ≡ false) × (filled + head_bytes ≤ length text.old) }
    ensures { ((series prices : List Float)
        → Stepped (completed counts request prices) series at filled result text.old text.new)
        × (result.sheet.stage ≡ Stage.Waiting) × (result.filled ≡ filled + head_bytes) }
{
    sheet_lines::text::print_head(text, filled, request.desk, request.rule, NO_SUCH_DESK, 0);
    Place {
        sheet: Sheet {
            stage: Stage::Waiting,
            counts,
        },
        at,
        filled: filled + sheet_lines::text::HEAD_BYTES,
    }
}

// Answers a request whose prices are all there, and prints the answer.
fn answer_complete(
    request: Request,
    counts: Counts,
    at: usize,
    series: &[f64],
    out: &mut [f64],
    work: &mut [f64],
    text: &mut [u8],
    filled: usize,
) -> Place
    requires { (request.bars ≤ most_bars) × Lent series.now out.old work.old
        × (filled + head_bytes + position_bytes * request.bars ≤ length text.old) }
    ensures { Stepped (completed counts request (take request.bars series.now))
        series.now at filled result text.old text.new
        × (result.sheet.stage ≡ Stage.Waiting) × (result.filled ≤ filled + head_bytes + position_bytes * request.bars)
        × (work.new ≡ work.old) }
{
    if crate::is_desk(request.desk) {
        answer_by_rule(request, counts, at, series, out, work, text, filled)
    } else {
        refuse_desk(request, counts, at, text, filled)
    }
}

// A request that has all its prices is answered; any other place stays as it is.
pub fn answer_if_complete(
    place: Place,
    series: &[f64],
    out: &mut [f64],
    work: &mut [f64],
    text: &mut [u8],
) -> Place
    requires { PricesFit place.sheet.stage × Lent series.now out.old work.old
        × (place.filled + text_owed place.sheet.stage ≤ length text.old) }
    ensures { SteppedInRoom (answer_if_complete place.sheet.stage place.sheet.counts series.now)
        series.now place.at place.filled result text.old text.new
        (place.filled + text_owed place.sheet.stage)
        × (work.new ≡ work.old) }
{
    match place.sheet.stage {
        Stage::Collecting(request, got) if got == request.bars => answer_complete(
            request,
            place.sheet.counts,
            place.at,
            series,
            out,
            work,
            text,
            place.filled,
        ),
        Stage::Waiting | Stage::Collecting(_, _) | Stage::Stopped(_) => place,
    }
}
