// What the program writes for an input, as bytes at the front of lent memory.
ghost use Rattle.std.specs.Prelude.{◌≤◌, length};
ghost use Rattle.converting.specs.Converting.{longest_output};
ghost use Rattle.brinetoggle.specs.Responding.{Responded};

use converting::convert;
use faults::Refusal;
use writing::write_refusal;

// How many bytes there are to write, of the mesh or of the line of a refusal, and this refusal.
#[derive(Clone, Copy)]
pub struct Response {
    pub length: usize,
    pub refusal: Option<Refusal>,
}

// Converts the input; where that is refused, the line of the refusal takes the mesh's place.
pub fn respond(input: &[u8], output: &mut [u8]) -> Response
    requires { longest_output ≤ length output.old }
    ensures { Responded input.now result output.new }
{
    match convert(input, output) {
        Ok(length) => Response {
            length,
            refusal: None,
        },
        Err(refusal) => Response {
            length: write_refusal(refusal, output).unwrap(),
            refusal: Some(refusal),
        },
    }
}
