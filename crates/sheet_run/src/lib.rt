// A run of the sheet: its buffers, a turn that reads a block and writes its answers, the end, the loop over the turns,
// and the run that answers the numbers with which it ends. The crate sheet_run_c has that as a C function, which
// tools/sheet/main.c calls.
#![tactic(auto)]

pub mod carried;
pub mod input;
pub mod streams;

ghost use Rattle.std.specs.Prelude.{◌≡◌, ◌≤◌, length};
ghost use Rattle.sheet_requests.specs.Whole.{end_of};
ghost use Rattle.sheet_requests.specs.inner.Finished.{cut_bytes};
ghost use Rattle.sheet_run.specs.Run.{write_status, status_of, Ends};
ghost use Rattle.sheet_run.specs.Turn.{Carrying, Turned, Closes};
ghost use Rattle.sheet_run.specs.inner.Buffers.{Buffers};

use carried::Carried;
use input::Output;
use sheet_lines::MOST_BARS;
use sheet_requests::WORK_CELLS;
use sheet_requests::blocks::TEXT_ROOM;
use sheet_requests::status::{End, Fault};
use std::io::{Stderr, Stdin, Stdout};
use streams::Streams;

// The most bytes that are in the block, and the bytes that it may print.
const BLOCK_BYTES: usize = 65536;

const TEXT_BYTES: usize = BLOCK_BYTES + TEXT_ROOM;

// The end of a run: what became of the text that is printed last, and where the input breaks.
#[derive(Clone, Copy)]
pub struct Closed {
    pub output: Output,
    pub fault: Option<Fault>,
}

// Moves the bytes that are left to the front of the block, reads
// once behind them, feeds them all, and writes the answers.
pub fn turn(
    streams: Streams,
    carried: Carried,
    block: &mut [u8],
    series: &mut [f64],
    out: &mut [f64],
    work: &mut [f64],
    text: &mut [u8],
) -> Carried
    requires { Carrying carried × Buffers block.old series.old out.old work.old text.old }
    ensures { Turned carried block.old series.old
        result block.new series.new text.new
        × (work.new ≡ work.old) }
{
    let read = input::refill(streams, block, carried.place.at, carried.end);
    let next = sheet_text::feed(
        carried.place.sheet,
        &block[..read.end],
        series,
        out,
        work,
        text,
    );
    let output = input::write_text(streams, text, next.filled);
    Carried {
        place: next,
        end: read.end,
        input: read.input,
        output,
    }
}

// Writes what is printed last, nothing where not all was read and written, and says where the input breaks.
pub fn close(streams: Streams, carried: Carried, text: &mut [u8]) -> Closed
    requires { Carrying carried × (cut_bytes ≤ length text.old) }
    ensures { Closes carried result text.new }
{
    let sheet = carried.place.sheet;
    let kept = carried.end - carried.place.at;
    let count = sheet_requests::closing::finish(carried::status(carried), sheet, kept, text);
    let output = input::write_text(streams, text, count);
    let fault = sheet_requests::closing::fault_at_end(sheet, kept);
    Closed { output, fault }
}

// The numbers with which a run ends so.
pub fn end_of(carried: Carried, closed: Closed) -> End
    ensures { result ≡ end_of (write_status closed.output.taken (status_of carried)) closed.fault }
{
    let status = carried::write_status(closed.output, carried::status(carried));
    sheet_requests::status::end_of(status, closed.fault)
}

// Turns until the end of the input, or until a line breaks its columns.
// They are counted, up to a number that no run reaches.
fn run(
    streams: Streams,
    block: &mut [u8],
    series: &mut [f64],
    out: &mut [f64],
    work: &mut [f64],
    text: &mut [u8],
) -> End
    requires { Buffers block.old series.old out.old work.old text.old }
    ensures { Ends result }
{
    let mut carried = carried::first();
    for _ in 0..u64::MAX {
        if !sheet_requests::status::goes_on(carried::status(carried)) {
            break;
        }
        carried = turn(streams, carried, block, series, out, work, text);
    }
    end_of(carried, close(streams, carried, text))
}

// A run with buffers of its own.
pub fn tegbalowu_sheet(input: Stdin, output: Stdout, errors: Stderr) -> End
    ensures { Ends result }
{
    let streams = Streams {
        input,
        output,
        errors,
    };
    let mut block = [0u8; BLOCK_BYTES];
    let mut series = [0.0; MOST_BARS];
    let mut out = [0.0; MOST_BARS];
    let mut work = [0.0; WORK_CELLS];
    let mut text = [0u8; TEXT_BYTES];
    run(
        streams,
        &mut block,
        &mut series,
        &mut out,
        &mut work,
        &mut text,
    )
}
