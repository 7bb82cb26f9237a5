// The run of the sheet as a C function; tools/sheet/main.c calls it.
#![tactic(auto)]

ghost use Rattle.sheet_run.specs.Run.{Ends};

use sheet_requests::status::End;
use std::io::{Stderr, Stdin, Stdout};

// A run with buffers of its own. The three handles take no bytes, so a caller in C passes nothing.
#[unsafe(no_mangle)]
pub extern "C" fn tegbalowu_sheet(input: Stdin, output: Stdout, errors: Stderr) -> End
    ensures { Ends result }
{
    sheet_run::tegbalowu_sheet(input, output, errors)
}
