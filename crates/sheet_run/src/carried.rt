// What a run of the sheet carries from turn to turn, and how it stands after one.
ghost use Rattle.std.specs.Prelude.{◌≡◌};
ghost use Rattle.sheet_run.specs.Run.{read_status, write_status, status_of};
ghost use Rattle.sheet_run.specs.inner.Start.{start};

use crate::input::{Input, Output};
use sheet_requests::blocks::{Place, Stage};
use sheet_requests::status::Status;

// What is carried from turn to turn: the sheet and its place in the
// block, where the bytes in the block end, and what was answered last.
#[derive(Clone, Copy)]
pub struct Carried {
    pub place: Place,
    pub end: usize,
    pub input: Input,
    pub output: Output,
}

// How a run stands after a read.
fn read_status(input: Input, stage: Stage) -> Status
    ensures { result ≡ read_status input stage }
{
    match input {
        Input::Failed => Status::ReadFailed,
        Input::Ended => Status::Done,
        Input::Bytes(_) => match stage {
            Stage::Waiting | Stage::Collecting(_, _) => Status::Reading,
            Stage::Stopped(_) => Status::Done,
        },
    }
}

// How it stands after a write.
pub fn write_status(output: Output, status: Status) -> Status
    ensures { result ≡ write_status output.taken status }
{
    if output.taken {
        status
    } else {
        Status::WriteFailed
    }
}

// How it stands after a turn.
pub fn status(carried: Carried) -> Status
    ensures { result ≡ status_of carried }
{
    write_status(
        carried.output,
        read_status(carried.input, carried.place.sheet.stage),
    )
}

// Before the first turn.
pub fn first() -> Carried
    ensures { result ≡ start }
{
    Carried {
        place: Place {
            sheet: sheet_requests::blocks::begin(),
            at: 0,
            filled: 0,
        },
        end: 0,
        input: Input::Bytes(0),
        output: Output {
            bytes: 0,
            taken: true,
        },
    }
}
