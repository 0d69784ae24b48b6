// Samples of reading, run and compared: the page's own, and a line for each other refusal of reading.
// Standard input has the samples: each is `#`, its name, byte 10, and the file as it stands up to the next `#`.
// A line of output is the sample's name, the answer (`DONE vertices elements` or `NO number place second`), how many numbers of each lent table the
// call changed from the canary that stood there, and these numbers where they are few.
#![tactic(auto)]

mod files;
mod show;

ghost use Rattle.std.specs.Prelude.{◌≤◌, length, IfOk};

use show::{sample, sample_in};
use std::io;
use std::io::Read;

const LINE_END: u8 = 10;

const SAMPLE: u8 = b'#';

// The longest text of samples.
const ROOM: usize = 65536;

fn main(rt: HostRuntime) -> io::Result<()> {
    let mut buffer = [0u8; ROOM];
    let n = read_full(&mut rt.stdin(), &mut buffer)?;
    samples(&rt, &buffer[..n])?;
    rooms(&rt)?;
    files::limits(&rt)
}

// Reads until the buffer is full or the input ends: how many bytes stand at the front of the buffer.
// The sample stands on its own, with a reading loop of its own.
fn read_full(input: &mut impl Read, buffer: &mut [u8]) -> io::Result<usize>
    ensures { IfOk result (λ n. n ≤ length buffer.new) }
{
    let mut at = 0;
    // No `for`, since each read says how far it came, and no `read_exact`, since the input may end anywhere.
    while at < buffer.len() {
        let n = input.read(&mut buffer[at..])?;
        if n == 0 {
            return Ok(at);
        }
        at += n;
    }
    Ok(at)
}

// A sample: its name, byte 10, the file.
fn named(rt: &impl Print, t: &[u8]) -> io::Result<()> {
    if let Some(n) = t.iter().position(|b| *b == LINE_END) {
        sample(rt, &t[..n], &t[n + 1..])?;
    }
    Ok(())
}

// The samples of a text, each behind its `#`.
fn samples(rt: &impl Print, text: &[u8]) -> io::Result<()> {
    for t in text.split(|b| *b == SAMPLE) {
        named(rt, t)?;
    }
    Ok(())
}

// ROOM: a lent table too short, and one that is just long enough.
fn rooms(rt: &impl Print) -> io::Result<()> {
    let vertices = b"VX 0 0 0\nVX 0 0 0\nEN 2 0\n";
    sample_in(rt, b"room for one vertex", vertices, 5, 9)?;
    sample_in(rt, b"room for two vertices", vertices, 6, 9)?;
    let element = b"VX 0 0 0\nTE 1 1 1 1\nEN 1 1\n";
    sample_in(rt, b"room for no element", element, 3, 8)?;
    sample_in(rt, b"room for one element", element, 3, 9)
}
