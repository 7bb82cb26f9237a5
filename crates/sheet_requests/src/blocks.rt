// The sheet's state and its lines: where a request stands in a block of bytes, and a line or a run of prices read.
ghost use Rattle.std.specs.Prelude.{◌≡◌, List, ◌<◌, ◌≤◌, ◌+◌, ◌-◌, false, length, drop, Float};
ghost use Rattle.sheet_lines.specs.Header.{most_bars, header_bytes, price_bytes};
ghost use Rattle.sheet_lines.specs.Reason.{no_feed};
ghost use Rattle.sheet_lines.specs.Printed.{head_bytes};
ghost use Rattle.sheet_requests.specs.Sheet.{broken};
ghost use Rattle.sheet_requests.specs.inner.Place.{beginning, next_line_bytes, Stepped, PricesRead};
ghost use Rattle.sheet_requests.specs.inner.Taken.{text_room, Placed, Taken};

use crate::Counts;
use sheet_lines::reasons::Reason;
use sheet_lines::text::BROKEN_LINE;
use sheet_lines::{HEADER_BYTES, PRICE_BYTES, Request};

// The room for text beyond a byte for each byte read: the longest answer, and the refusal of a broken line.
pub const TEXT_ROOM: usize = sheet_lines::text::HEAD_BYTES
    + sheet_lines::text::POSITION_BYTES * sheet_lines::MOST_BARS
    + sheet_lines::text::HEAD_BYTES;

// Where a request stands: before its first line; with so many of its prices; or where a line broke its columns,
// for a reason.
#[derive(Clone, Copy)]
pub enum Stage {
    Waiting,
    Collecting(Request, usize),
    Stopped(Reason),
}

// What is carried from block to block.
#[derive(Clone, Copy)]
pub struct Sheet {
    pub stage: Stage,
    pub counts: Counts,
}

// A sheet, the next byte of the block, and the bytes printed so far.
#[derive(Clone, Copy)]
pub struct Place {
    pub sheet: Sheet,
    pub at: usize,
    pub filled: usize,
}

// Prices that were read: the byte after them, how many there are, and why the next line is broken, if one was met.
#[derive(Clone, Copy)]
pub struct Run {
    pub at: usize,
    pub got: usize,
    pub broken: Option<Reason>,
}

// Reads prices from `at` on until the request has all or too few bytes are left.
fn read_prices(block: &[u8], at: usize, request: Request, got: usize, series: &mut [f64]) -> Run
    requires { (at + price_bytes ≤ length block.now) × (got < request.bars)
        × (request.bars ≤ length series.old) }
    ensures { PricesRead block.now at request got series.old result series.new }
{
    let end = got + (request.bars - got).min((block.len() - at) / PRICE_BYTES);
    let mut place = at;
    for i in got..end {
        match sheet_lines::read_price_line(&block[place..place + PRICE_BYTES]) {
            Ok(price) => series[i] = price,
            Err(reason) => {
                return Run {
                    at: place,
                    got: i,
                    broken: Some(reason),
                };
            }
        }
        place += PRICE_BYTES;
    }
    Run {
        at: place,
        got: end,
        broken: None,
    }
}

// A broken line is answered, and nothing more is read.
fn stop(counts: Counts, reason: Reason, at: usize, text: &mut [u8], filled: usize) -> Place
    requires { filled + head_bytes ≤ length text.old }
    ensures { ((series : List Float)
        → Stepped (broken counts reason) series at filled result text.old text.new)
        × (result.sheet.stage ≡ Stage.Stopped reason) × (result.filled ≡ filled + head_bytes) }
{
    sheet_lines::text::print_head(text, filled, 0, 0, BROKEN_LINE, 0);
    Place {
        sheet: Sheet {
            stage: Stage::Stopped(reason),
            counts: counts.after_lines(1),
        },
        at,
        filled: filled + sheet_lines::text::HEAD_BYTES,
    }
}

// Reads the first line of a request.
fn take_header(place: Place, block: &[u8], text: &mut [u8]) -> Place
    requires { (place.sheet.stage ≡ Stage.Waiting) × (place.at + header_bytes ≤ length block.now)
        × Placed block.now place × (length block.now + text_room ≤ length text.old) }
    ensures { (series : List Float)
        → Taken block.now place series text.old result series text.new }
{
    let counts = place.sheet.counts;
    let next = place.at + HEADER_BYTES;
    match sheet_lines::read_header(&block[place.at..next]) {
        Ok(request) => Place {
            sheet: Sheet {
                stage: Stage::Collecting(request, 0),
                counts: counts.after_lines(1),
            },
            at: next,
            filled: place.filled,
        },
        Err(reason) => stop(counts, reason, block.len(), text, place.filled),
    }
}

// Reads prices of the request.
fn take_prices(
    place: Place,
    request: Request,
    got: usize,
    block: &[u8],
    series: &mut [f64],
    text: &mut [u8],
) -> Place
    requires { (place.sheet.stage ≡ Stage.Collecting request got) × (place.at + price_bytes ≤ length block.now)
        × Placed block.now place × (length series.old ≡ most_bars)
        × (length block.now + text_room ≤ length text.old) }
    ensures { Taken block.now place series.old text.old
        result series.new text.new }
{
    let run = read_prices(block, place.at, request, got, series);
    let counts = place.sheet.counts.after_lines(run.got - got);
    match run.broken {
        None => Place {
            sheet: Sheet {
                stage: Stage::Collecting(request, run.got),
                counts,
            },
            at: run.at,
            filled: place.filled,
        },
        Some(reason) => stop(counts, reason, block.len(), text, place.filled),
    }
}

// Reads on: the first line of a request, or prices. A request that has all its prices is still to be answered.
pub fn take_lines(place: Place, block: &[u8], series: &mut [f64], text: &mut [u8]) -> Place
    requires { (next_line_bytes place.sheet.stage ≤ length block.now - place.at)
        × Placed block.now place × (length series.old ≡ most_bars)
        × (length block.now + text_room ≤ length text.old) }
    ensures { Taken block.now place series.old text.old
        result series.new text.new }
{
    match place.sheet.stage {
        Stage::Waiting => take_header(place, block, text),
        Stage::Collecting(request, got) => take_prices(place, request, got, block, series, text),
        Stage::Stopped(_) => Place {
            at: block.len(),
            ..place
        },
    }
}

// A line that ends before its columns are there is broken.
pub fn take_short(place: Place, block: &[u8], text: &mut [u8]) -> Place
    requires { (length block.now - place.at < next_line_bytes place.sheet.stage)
        × (no_feed (drop place.at block.now) ≡ false)
        × Placed block.now place × (length block.now + text_room ≤ length text.old) }
    ensures { ((series : List Float)
        → Taken block.now place series text.old result series text.new)
        × (result.sheet.stage ≡ Stage.Stopped Reason.LineLength) × (result.at ≡ length block.now) }
{
    stop(
        place.sheet.counts,
        Reason::LineLength,
        block.len(),
        text,
        place.filled,
    )
}

// How many bytes the next line has.
pub fn next_line_bytes(place: Place) -> usize
    ensures { result ≡ next_line_bytes place.sheet.stage }
{
    match place.sheet.stage {
        Stage::Waiting => HEADER_BYTES,
        Stage::Collecting(_, _) => PRICE_BYTES,
        Stage::Stopped(_) => 1,
    }
}

// Before the first request.
pub fn begin() -> Sheet
    ensures { result ≡ beginning }
{
    Sheet {
        stage: Stage::Waiting,
        counts: Counts::none(),
    }
}
