// An answer's lines and the line of a desk's count printed, on byte slices.
ghost use Rattle.std.specs.Prelude.{◌≡◌, [], ◌∷◌, ◌+◌, ◌*◌, ◌≤◌, length};
ghost use Rattle.calls.specs.Answer.{count_of};
ghost use Rattle.cells.specs.Line.{line};
ghost use Rattle.sheet_lines.specs.inner.Adds.{Adds};
ghost use Rattle.sheet_lines.specs.Printed.{
  head_bytes,
  position_bytes,
  count_bytes,
  head_line,
  position_line,
  position_lines,
  answer_text,
  count_line,
};

use crate::Request;
use calls::Answer;

// The bytes of an answer's first line, of a position's line and of a desk's count, each with its line feed.
pub const HEAD_BYTES: usize = 19;

pub const POSITION_BYTES: usize = 5;

pub const COUNT_BYTES: usize = 17;

// The refusals of a line that breaks its columns, and of a desk below 1 or above 16.
pub const BROKEN_LINE: u64 = 10;

pub const NO_SUCH_DESK: u64 = 15;

// Prints an answer's first line from `at` on.
pub fn print_head(text: &mut [u8], at: usize, desk: u64, rule: u64, refusal: u64, count: u64)
    requires { at + head_bytes ≤ length text.old }
    ensures { Adds at (head_line desk rule refusal count) (at + head_bytes)
        text.old text.new }
{
    crate::columns::print_field(text, at, 4, desk);
    crate::columns::print_field(text, at + 4, 4, rule);
    crate::columns::print_field(text, at + 8, 4, refusal);
    crate::columns::print_field(text, at + 12, 6, count);
    text[at + 18] = b'\n';
}

// Prints the position x from `at` on: its sign and a digit in 4 columns.
fn print_position(text: &mut [u8], at: usize, x: f64)
    requires { at + position_bytes ≤ length text.old }
    ensures { Adds at (position_line x) (at + position_bytes) text.old text.new }
{
    let line = if x > 0.0 {
        b"   1\n"
    } else if x < 0.0 {
        b"  -1\n"
    } else {
        b"   0\n"
    };
    text[at..at + POSITION_BYTES].copy_from_slice(line);
}

// Prints the positions in `cells` from `at` on.
fn print_positions(text: &mut [u8], at: usize, cells: &[f64])
    requires { at + position_bytes * length cells.now ≤ length text.old }
    ensures { Adds at (position_lines (length cells.now) (line cells.now)) (at + position_bytes * length cells.now)
        text.old text.new }
{
    for (i, x) in cells.iter().enumerate() {
        print_position(text, at + POSITION_BYTES * i, *x);
    }
}

// Prints the number of a desk's refused requests from `at` on.
pub fn print_count(text: &mut [u8], at: usize, desk: u64, refused: u64)
    requires { at + count_bytes ≤ length text.old }
    ensures { Adds at (count_line desk refused) (at + count_bytes) text.old text.new }
{
    crate::columns::print_field(text, at, 4, desk);
    crate::columns::print_field(text, at + 4, 12, refused);
    text[at + 16] = b'\n';
}

// Prints an answer from `at` on, with the positions in `cells`, and gives the place after it.
pub fn print_answer(
    text: &mut [u8],
    at: usize,
    request: Request,
    given: Answer,
    cells: &[f64],
) -> usize
    requires { (count_of given ≤ length cells.now)
        × (at + head_bytes + position_bytes * count_of given ≤ length text.old) }
    ensures { Adds at (answer_text request given (line cells.now)) result
        text.old text.new × (result ≡ at + head_bytes + position_bytes * count_of given) }
{
    let count = calls::count_of(given);
    print_head(
        text,
        at,
        request.desk,
        request.rule,
        calls::refusal_of(given),
        count as u64,
    );
    print_positions(text, at + HEAD_BYTES, &cells[..count]);
    at + HEAD_BYTES + POSITION_BYTES * count
}
