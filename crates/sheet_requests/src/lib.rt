// A request answered: refused requests and lines counted here; lines read (`blocks`), answers printed (`answers`), the
// end of a sheet (`closing`), and how a run stands (`status`).
#![tactic(auto)]

pub mod answers;
pub mod blocks;
pub mod closing;
pub mod status;

ghost use Rattle.std.specs.Prelude.{◌≡◌, true, ◌≤◌, ◌+◌, length};
ghost use Rattle.sheet_lines.specs.inner.Adds.{Adds};
ghost use Rattle.sheet_requests.specs.Counts.{
  is_desk,
  many_more,
  none_yet,
  one_more_of,
  after,
  after_lines,
  closing,
  closing_bytes,
};

use calls::Answer;
use sheet_lines::Request;

// Eight work cells for each of the most bars.
pub const WORK_CELLS: usize = 8 * sheet_lines::MOST_BARS;

// How many desks there are.
const DESKS: usize = 16;

// The bytes of what is printed last.
pub const CLOSING_BYTES: usize = sheet_lines::text::COUNT_BYTES * DESKS;

// The largest count: it stays within 12 columns.
const MOST_COUNT: u64 = 999999999999;

// The refused requests of each desk and the lines so far.
#[derive(Clone, Copy)]
pub struct Counts {
    pub refused: [u64; DESKS],
    pub lines: u64,
}

// So many more.
fn many_more(count: u64, more: usize) -> u64
    ensures { result ≡ many_more more count }
{
    if count < MOST_COUNT {
        if (more as u64) < MOST_COUNT - count {
            count + more as u64
        } else {
            MOST_COUNT
        }
    } else {
        count
    }
}

// Whether it is one of the desks, 1 to 16.
fn is_desk(desk: u64) -> bool
    ensures { result ≡ is_desk desk }
{
    (1..=DESKS as u64).contains(&desk)
}

impl Counts {
    // Before the first line.
    pub fn none() -> Self
        ensures { result ≡ none_yet }
    {
        Counts {
            refused: [0; DESKS],
            lines: 0,
        }
    }

    // One more refused request of a desk.
    fn one_more(self, desk: u64) -> Self
        requires { is_desk desk ≡ true }
        ensures { result ≡ one_more_of self desk }
    {
        let mut refused = self.refused;
        let at = (desk - 1) as usize;
        refused[at] = many_more(refused[at], 1);
        Counts {
            refused,
            lines: self.lines,
        }
    }

    // After the answer of its rule to a request of one of the desks.
    pub fn after(self, request: Request, answer: Answer) -> Self
        requires { is_desk request.desk ≡ true }
        ensures { result ≡ after self request answer }
    {
        match answer {
            Ok(_) => self,
            Err(_) => self.one_more(request.desk),
        }
    }

    // After so many lines that were read.
    pub fn after_lines(self, lines: usize) -> Self
        ensures { result ≡ after_lines lines self }
    {
        Counts {
            lines: many_more(self.lines, lines),
            ..self
        }
    }

    // Prints all that is printed last from `at` on.
    pub fn print(self, text: &mut [u8], at: usize)
        requires { at + closing_bytes ≤ length text.old }
        ensures { Adds at (closing self) (at + closing_bytes) text.old text.new }
    {
        for i in 0..DESKS {
            sheet_lines::text::print_count(
                text,
                at + sheet_lines::text::COUNT_BYTES * i,
                (i + 1) as u64,
                self.refused[i],
            );
        }
    }
}
