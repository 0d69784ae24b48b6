// The program: a mesh from standard input, cut, to standard output; or one line `NO number place second` there, and why on standard error.
#![tactic(auto)]

mod reading;
mod responding;
mod words;

ghost use Rattle.std.specs.Prelude.{◌≡◌, IfSome};
ghost use Rattle.std.specs.Io.KnownBytes.{Appends};
ghost use Rattle.std.specs.Process.{exit_status};
ghost use Rattle.converting.specs.Conversion.{program_output};

use converting::LONGEST_OUTPUT;
use limits::FILE_LIMIT;
use reading::read_input;
use responding::respond;
use std::io::{Read, Write};
use std::process::ExitCode;
use words::{explain, explain_failure};

// One byte past the longest file, so that LONG is seen.
const INPUT_ROOM: usize = FILE_LIMIT + 1;

fn main(rt: HostRuntime) -> ExitCode {
    run(&rt, &mut rt.stdin(), &mut rt.stdout())
}

// Reads a file and writes what the page says for it, where no stream fails.
// A read that fails is never taken for the end: then nothing is written to the output.
fn run<I: Read, O: Write>(rt: &impl Eprint, input: &mut I, output: &mut O) -> ExitCode
    ensures { exit_status result ≡ 0 → IfSome (I.remaining input.old)
        (λ file. Appends (O.contents output.old) (O.contents output.new) (program_output file)) }
{
    let mut room = [0u8; INPUT_ROOM];
    match read_input(input, &mut room) {
        Ok(n) => answer(rt, &room[..n], output),
        Err(failure) => {
            explain_failure(rt, "standard input", &failure);
            ExitCode::FAILURE
        }
    }
}

// Writes what the page says for the input, and a refusal in words.
fn answer<O: Write>(rt: &impl Eprint, input: &[u8], output: &mut O) -> ExitCode
    ensures { exit_status result ≡ 0 → Appends (O.contents output.old) (O.contents output.new) (program_output input.now) }
{
    let mut text = [0u8; LONGEST_OUTPUT];
    let response = respond(input, &mut text);
    let status = write_out(rt, &text[..response.length], output);
    if let Some(refusal) = response.refusal {
        explain(rt, refusal);
    }
    status
}

// All of it to the output; a write that fails is said on standard error.
fn write_out<O: Write>(rt: &impl Eprint, bytes: &[u8], output: &mut O) -> ExitCode
    ensures { exit_status result ≡ 0 → Appends (O.contents output.old) (O.contents output.new) bytes.now }
{
    match output.write_all(bytes) {
        Ok(()) => ExitCode::SUCCESS,
        Err(failure) => {
            explain_failure(rt, "standard output", &failure);
            ExitCode::FAILURE
        }
    }
}
