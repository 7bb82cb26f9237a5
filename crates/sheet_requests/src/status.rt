// How a run of the sheet stands, where its input breaks, and the numbers with which it ends.
ghost use Rattle.std.specs.Prelude.{◌≡◌};
ghost use Rattle.sheet_requests.specs.Whole.{goes_on, failed_end, end_of};

use sheet_lines::reasons::Reason;

// How the program stands: it reads on; all is read, to the end of the
// input or to a line that broke its columns; or a read or a write failed.
// Each of the four is told by name in the definition of what is printed last (Whole.antt), so it is no Result.
#[derive(Clone, Copy)]
pub enum Status {
    Reading,
    Done,
    ReadFailed,
    WriteFailed,
}

// Where an input breaks its columns: the line, counted from 1, and the reason.
#[derive(Clone, Copy)]
pub struct Fault {
    pub line: u64,
    pub reason: Reason,
}

// The numbers with which a run ends: the exit status, and of a line that broke its columns the reason and the line.
// Numbers, since C is handed them.
#[repr(C)]
#[derive(Clone, Copy)]
pub struct End {
    pub status: u32,
    pub reason: u32,
    pub line: u64,
}

// Whether more is to be read.
pub fn goes_on(status: Status) -> bool
    ensures { result ≡ goes_on status }
{
    match status {
        Status::Reading => true,
        Status::Done | Status::ReadFailed | Status::WriteFailed => false,
    }
}

// The numbers of a run that read all, up to the end of the input or to where it breaks.
fn end_of_all(fault: Option<Fault>) -> End
    ensures { result ≡ end_of Status.Done fault }
{
    match fault {
        None => End {
            status: 0,
            reason: 0,
            line: 0,
        },
        Some(fault) => End {
            status: 3,
            reason: sheet_lines::reasons::number_of(fault.reason),
            line: fault.line,
        },
    }
}

// The numbers of a run that failed.
fn failed() -> End
    ensures { result ≡ failed_end }
{
    End {
        status: 1,
        reason: 0,
        line: 0,
    }
}

// The numbers of a run that ended so.
pub fn end_of(status: Status, fault: Option<Fault>) -> End
    ensures { result ≡ end_of status fault }
{
    match status {
        Status::Done => end_of_all(fault),
        Status::Reading | Status::ReadFailed | Status::WriteFailed => failed(),
    }
}
