// The standard streams that a run reads and writes, and the words on standard error for a call that failed.
use std::io::{Error, Stderr, Stdin, Stdout, Write};
use std::str;

// What a run may read and write. The handles take no bytes, so a caller in C passes nothing for them.
#[derive(Clone, Copy)]
pub struct Streams {
    pub input: Stdin,
    pub output: Stdout,
    pub errors: Stderr,
}

// The system's own words for why a call failed: std puts the error's number behind them.
fn words(why: &str) -> &str {
    match why.split_once(" (os error ") {
        Some((words, _)) => words,
        None => why.trim_end_matches('\0'),
    }
}

// Writes a line to standard error, as C's perror does: what failed, a colon and why. Where that fails nothing is said.
pub(crate) fn tell(errors: Stderr, what: &str, why: Error) {
    let mut bytes = [0u8; 256];
    let mut room = &mut bytes[..];
    let _ = write!(room, "{why}");
    if let Ok(why) = str::from_utf8(&bytes) {
        let why = words(why);
        let _ = errors.eprintln(format_args!("sheet: {what}: {why}"));
    }
}
