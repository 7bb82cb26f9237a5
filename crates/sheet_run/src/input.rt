// Standard input and standard output: a block of input read, and a text written.
//
// No contract of std says which bytes a call of the system's reads or writes. That the block
// holds what came, and that the bytes handed over are written, is assumed here, and
// tested by tools/sheet_compare; what is done with the bytes in the buffers is proved.
ghost use Rattle.std.specs.Prelude.{◌≡◌, ◌≤◌, ◌+◌, length, take};
ghost use Rattle.sheet_run.specs.Run.{input_of, bytes_read};
ghost use Rattle.sheet_run.specs.inner.Refills.{Refills};

use crate::streams;
use crate::streams::Streams;
use std::io::{Error, ErrorKind, Read, Stdout, Write};

// What a read answered: so many bytes came, the input has ended, or it could not be read.
// Not the count of a Read alone: before the first turn no byte has come, and the input has not ended.
#[derive(Clone, Copy)]
pub enum Input {
    Bytes(usize),
    Ended,
    Failed,
}

// What became of a text: how many bytes were handed over to be written, and whether all were taken.
// The number is there in both cases: the contract of a turn says it of a write that failed too.
#[derive(Clone, Copy)]
pub struct Output {
    pub bytes: usize,
    pub taken: bool,
}

// The bytes that are in the block after a read: where they end, and what the read answered.
#[derive(Clone, Copy)]
pub struct Refilled {
    pub end: usize,
    pub input: Input,
}

// What the answer of a read says: with no count it failed, and with no byte the input has ended.
fn input_of(got: Option<usize>, room: &[u8]) -> Input
    ensures { result ≡ input_of got (length room.now) }
{
    let Some(count) = got else {
        return Input::Failed;
    };
    match count.min(room.len()) {
        0 => Input::Ended,
        count => Input::Bytes(count),
    }
}

// Reads once. The reason why a read failed goes to standard error.
fn read_some(streams: Streams, room: &mut [u8]) -> Input
    ensures { bytes_read result ≤ length room.old }
{
    let mut input = streams.input;
    let got = match input.read(room) {
        Ok(count) => Some(count),
        Err(why) => {
            streams::tell(streams.errors, "reading", why);
            None
        }
    };
    input_of(got, room)
}

// Reads once behind the first `kept` bytes of the block, which stay.
fn read_on(streams: Streams, block: &mut [u8], kept: usize) -> Input
    requires { kept ≤ length block.old }
    ensures { (kept + bytes_read result ≤ length block.old)
        × (take kept block.new ≡ take kept block.old) }
{
    read_some(streams, &mut block[kept..])
}

// How many bytes came.
fn count_of(input: Input) -> usize
    ensures { result ≡ bytes_read input }
{
    match input {
        Input::Bytes(count) => count,
        Input::Ended | Input::Failed => 0,
    }
}

// Moves the bytes from `at` to `end`, which are left, to the front of the block, and reads once behind them.
pub fn refill(streams: Streams, block: &mut [u8], at: usize, end: usize) -> Refilled
    requires { (at ≤ end) × (end ≤ length block.old) }
    ensures { Refills at end block.old result block.new }
{
    let kept = cells::keep(block, at, end);
    let input = read_on(streams, block, kept);
    Refilled {
        end: kept + count_of(input),
        input,
    }
}

// Writes all of the bytes, or stops at the first write that takes nothing or fails. A write that a signal
// interrupts is one that failed.
fn write_all(output: Stdout, bytes: &[u8]) -> Result<(), Error> {
    let mut output = output;
    let mut rest = bytes;
    while !rest.is_empty() {
        let count = output.write(rest)?;
        if count == 0 {
            return Err(Error::new(ErrorKind::WriteZero, "failed to write whole buffer"));
        }
        rest = &rest[count..];
    }
    Ok(())
}

// Writes the first `filled` bytes of the text. The reason why a write failed goes to standard error.
pub fn write_text(streams: Streams, text: &[u8], filled: usize) -> Output
    requires { filled ≤ length text.now }
    ensures { result.bytes ≡ filled }
{
    let bytes = &text[..filled];
    let taken = match write_all(streams.output, bytes) {
        Ok(()) => true,
        Err(why) => {
            streams::tell(streams.errors, "writing", why);
            false
        }
    };
    Output {
        bytes: bytes.len(),
        taken,
    }
}
