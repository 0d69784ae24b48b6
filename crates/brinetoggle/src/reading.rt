// Standard input, read into lent room to its end or until the room is full. A read that fails is told apart from the end.
ghost use Rattle.std.specs.Prelude.{◌≡◌, ◌+◌, ◌^◌, ◌<◌, length, IfOk};
ghost use Rattle.brinetoggle.specs.Input.{turn_of, InputWithin, InputReads};

use std::io;
use std::io::Read;

// What the answer of a read means where `at` bytes were read before it: how many there are with it, none where the input has ended, or the failure.
fn turn_of(got: io::Result<usize>, at: usize) -> io::Result<Option<usize>>
    requires { IfOk got (λ n. at + n < 2 ^ 64) }
    ensures { result ≡ turn_of got at }
{
    match got {
        Ok(0) => Ok(None),
        Ok(n) => Ok(Some(at + n)),
        Err(failure) => Err(failure),
    }
}

// Reads until the input ends, a read fails or the room is full; how many bytes stand at the front of the room.
pub fn read_input<I: Read>(input: &mut I, room: &mut [u8]) -> io::Result<usize>
    ensures within { InputWithin (length room.old) result }
    ensures bytes { InputReads (I.remaining input.old) result room.new }
{
    let mut at = 0;
    // No `for`, since each read says how far it came, and no `read_exact`, since the input may end anywhere.
    while at < room.len() {
        let got = input.read(&mut room[at..]);
        let Some(n) = turn_of(got, at)? else {
            break;
        };
        at = n;
    }
    Ok(at)
}
