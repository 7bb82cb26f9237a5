// The end of a sheet: what is printed last, and where the input breaks.
ghost use Rattle.std.specs.Prelude.{◌≡◌, ◌++◌, ◌<◌, ◌≤◌, length, take};
ghost use Rattle.sheet_requests.specs.Counts.{after_lines, closing};
ghost use Rattle.sheet_requests.specs.Sheet.{broken, missing_line};
ghost use Rattle.sheet_requests.specs.inner.Place.{next_line_bytes};
ghost use Rattle.sheet_requests.specs.inner.Finished.{cut_bytes, Finished, FaultAtEnd};

use crate::blocks::{Sheet, Stage};
use crate::status::{Fault, Status};
use crate::{CLOSING_BYTES, Counts};
use sheet_lines::reasons::Reason;
use sheet_lines::text::BROKEN_LINE;

// The bytes that are printed where the input ends inside a request.
const CUT_BYTES: usize = sheet_lines::text::HEAD_BYTES + CLOSING_BYTES;

// Prints that a request broke off, and what is printed last.
fn print_cut(text: &mut [u8], counts: Counts)
    requires { cut_bytes ≤ length text.old }
    ensures { take cut_bytes text.new
        ≡ (broken counts Reason.InputEnds).prints ++ closing (after_lines 1 counts) }
{
    sheet_lines::text::print_head(text, 0, 0, 0, BROKEN_LINE, 0);
    let cut = counts.after_lines(1);
    cut.print(text, sheet_lines::text::HEAD_BYTES);
}

// Prints what the end of the input gives, with `kept` bytes that are too few for a line, and gives how many bytes.
fn print_end(sheet: Sheet, kept: usize, text: &mut [u8]) -> usize
    requires { (kept < next_line_bytes sheet.stage) × (cut_bytes ≤ length text.old) }
    ensures { Finished Status.Done sheet kept result text.new }
{
    match sheet.stage {
        Stage::Waiting => {
            if kept == 0 {
                sheet.counts.print(text, 0);
                CLOSING_BYTES
            } else {
                print_cut(text, sheet.counts);
                CUT_BYTES
            }
        }
        Stage::Collecting(_, _) => {
            print_cut(text, sheet.counts);
            CUT_BYTES
        }
        Stage::Stopped(_) => {
            sheet.counts.print(text, 0);
            CLOSING_BYTES
        }
    }
}

// Prints what is printed last, and gives how many bytes: none where not
// all was read and written, so that no last line follows a failed read.
pub fn finish(status: Status, sheet: Sheet, kept: usize, text: &mut [u8]) -> usize
    requires { (kept < next_line_bytes sheet.stage) × (cut_bytes ≤ length text.old) }
    ensures { Finished status sheet kept result text.new }
{
    match status {
        Status::Done => print_end(sheet, kept, text),
        Status::Reading | Status::ReadFailed | Status::WriteFailed => 0,
    }
}

// The line after those that were read is missing, or not whole.
fn missing_line(counts: Counts) -> Fault
    ensures { result ≡ missing_line counts }
{
    Fault {
        line: counts.after_lines(1).lines,
        reason: Reason::InputEnds,
    }
}

// Where the input breaks, if it ends here with `kept` bytes that are too few for a line.
pub fn fault_at_end(sheet: Sheet, kept: usize) -> Option<Fault>
    requires { kept < next_line_bytes sheet.stage }
    ensures { FaultAtEnd sheet kept result }
{
    match sheet.stage {
        Stage::Waiting if kept == 0 => None,
        Stage::Waiting => Some(missing_line(sheet.counts)),
        Stage::Collecting(_, _) => Some(missing_line(sheet.counts)),
        Stage::Stopped(reason) => Some(Fault {
            line: sheet.counts.lines,
            reason,
        }),
    }
}
