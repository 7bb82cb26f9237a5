// A block of bytes read and answered, and the sheet of a whole input over lent slices: no input or output of C's.
#![tactic(auto)]

ghost use Rattle.std.specs.Prelude.{◌≡◌, ◌≤◌, ◌+◌, length};
ghost use Rattle.cells.specs.Written.{Writing};
ghost use Rattle.sheet_requests.specs.inner.Place.{Incomplete};
ghost use Rattle.sheet_requests.specs.inner.Taken.{text_room};
ghost use Rattle.sheet_requests.specs.inner.Lent.{Lent};
ghost use Rattle.sheet_requests.specs.Sheet.{sheet};
ghost use Rattle.sheet_text.specs.SheetText.{sheet_room, bytes_of, SheetCall};
ghost use Rattle.sheet_text.specs.inner.Block.{Fed};
ghost use Rattle.sheet_text.specs.inner.Standing.{part_bytes, text_bytes, Copied, Standing, Parted};

use calls::{Answer, Refusal};
use sheet_lines::MOST_BARS;
use sheet_requests::WORK_CELLS;
use sheet_requests::blocks::{Place, Sheet, TEXT_ROOM};
use sheet_requests::status::Status;

// The bytes of output that any input may need beyond one for each of its own.
pub const SHEET_ROOM: usize = sheet_lines::text::HEAD_BYTES + sheet_requests::CLOSING_BYTES;

// The most bytes that are fed at once, and the bytes that they may print.
const PART_BYTES: usize = 4096;

const TEXT_BYTES: usize = PART_BYTES + TEXT_ROOM;

// Reads a block as far as its bytes make whole lines, and prints the answers from the start of the text on.
pub fn feed(
    sheet: Sheet,
    block: &[u8],
    series: &mut [f64],
    out: &mut [f64],
    work: &mut [f64],
    text: &mut [u8],
) -> Place
    requires { Incomplete sheet.stage × Lent series.old out.old work.old
        × (length block.now + text_room ≤ length text.old) }
    ensures { Fed sheet block.now series.old result series.new text.new
        × (work.new ≡ work.old) }
{
    let mut place = Place {
        sheet,
        at: 0,
        filled: 0,
    };
    // The step is what a turn read, which no range counts.
    while sheet_requests::blocks::next_line_bytes(place) <= block.len() - place.at {
        let read = sheet_requests::blocks::take_lines(place, block, series, text);
        place = sheet_requests::answers::answer_if_complete(read, series, out, work, text);
    }
    if sheet_lines::reasons::has_feed(&block[place.at..]) {
        sheet_requests::blocks::take_short(place, block, text)
    } else {
        place
    }
}

// Copies the first `count` bytes of the text into the output, from `at` on: a turn for each, since by `copy_from_slice`
// the library for C asks for `memmove`.
fn copy(text: &[u8], count: usize, out: &mut [u8], at: usize)
    requires { (count ≤ length text.now) × (at + count ≤ length out.old) }
    ensures { Copied text.now count at out.old out.new }
{
    for i in 0..count {
        out[at + i] = text[i];
    }
}

// Feeds the input from the place up to `end`, and writes what it prints behind what is written.
fn part(
    place: Place,
    input: &[u8],
    end: usize,
    series: &mut [f64],
    cells: &mut [f64],
    work: &mut [f64],
    text: &mut [u8],
    out: &mut [u8],
) -> Place
    requires { Standing input.now out.old place series.old out.old
        × Lent series.old cells.old work.old × (length text.old ≡ text_bytes)
        × (place.at ≤ end) × (end ≤ length input.now) × (end ≤ place.at + part_bytes)
        × (length input.now + sheet_room ≤ length out.old) }
    ensures { Parted input.now out.old place end result
        series.new out.new
        × (work.new ≡ work.old) }
{
    let next = feed(
        place.sheet,
        &input[place.at..end],
        series,
        cells,
        work,
        text,
    );
    copy(text, next.filled, out, place.filled);
    Place {
        sheet: next.sheet,
        at: place.at + next.at,
        filled: place.filled + next.filled,
    }
}

// Writes the whole sheet, and gives how many bytes it has.
fn fill(
    input: &[u8],
    series: &mut [f64],
    cells: &mut [f64],
    work: &mut [f64],
    text: &mut [u8],
    out: &mut [u8],
) -> usize
    requires { Lent series.old cells.old work.old × (length text.old ≡ text_bytes)
        × (length input.now + sheet_room ≤ length out.old) }
    ensures { (result ≡ length (sheet input.now))
        × Writing result (bytes_of (sheet input.now)) out.old out.new }
{
    let mut place = Place {
        sheet: sheet_requests::blocks::begin(),
        at: 0,
        filled: 0,
    };
    // The step is what a part read, which no range counts.
    while PART_BYTES < input.len() - place.at {
        let end = place.at + PART_BYTES;
        place = part(place, input, end, series, cells, work, text, out);
    }
    let last = part(place, input, input.len(), series, cells, work, text, out);
    let count = sheet_requests::closing::finish(
        Status::Done,
        last.sheet,
        input.len() - last.at,
        text,
    );
    copy(text, count, out, last.filled);
    last.filled + count
}

// The sheet of the input in the first bytes of the output; later bytes stay.
pub fn sheet_text(input: &[u8], out: &mut [u8]) -> Answer
    ensures { SheetCall input.now out.old result out.new }
{
    if out.len() < SHEET_ROOM {
        return Err(Refusal::OutputTooShort);
    }
    if out.len() - SHEET_ROOM < input.len() {
        return Err(Refusal::OutputTooShort);
    }
    let mut series = [0.0; MOST_BARS];
    let mut cells = [0.0; MOST_BARS];
    let mut work = [0.0; WORK_CELLS];
    let mut text = [0u8; TEXT_BYTES];
    Ok(fill(input, &mut series, &mut cells, &mut work, &mut text, out))
}
