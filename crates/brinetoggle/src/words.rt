// A refusal in words, on standard error: where it lies, its name, what is wrong and what was expected.
// Where standard error cannot be written, there is nowhere left to say so.
use faults::{Fault, Refusal, refuser_of, spot_of};
use std::io;

// The sentence of each of the page's faults.
fn sentence(fault: Fault) -> &'static str {
    match fault {
        Fault::Long => "LONG: it has more than 65,536 bytes",
        Fault::Mark => {
            "MARK: no line with such a mark may stand here; expected VX lines, then TE, PY, PZ, PR or HX lines, then one EN line, the last"
        }
        Fault::Shape => {
            "SHAPE: wrong number of fields or wrong spacing; expected one space before each field, as many fields as the mark wants, and a line end"
        }
        Fault::Comma => "COMMA: a coordinate holds a comma; write 1.250, not 1,250",
        Fault::Number => {
            "NUMBER: a field is no number of its form; expected a coordinate as -12.5 or 0.125, a vertex number or count as 0 or 4096"
        }
        Fault::Range => {
            "RANGE: a coordinate is beyond the limits; expected -500 to 500 millimetres"
        }
        Fault::Many => {
            "MANY: one line too many; expected at most 4,096 vertices and 1,024 elements"
        }
        Fault::Vertex => {
            "VERTEX: a vertex number is 0 or above the number of VX lines; expected 1 up to that number"
        }
        Fault::Room => "ROOM: a table or buffer is too short",
        Fault::End => {
            "END: no EN line, or its counts are not those of the file; expected EN, the number of VX lines, the number of element lines"
        }
        Fault::Kind => "KIND: a kind other than 4, 5, 6 or 8",
        Fault::Spare => "SPARE: an unused vertex number is not zero",
        Fault::Repeat => {
            "REPEAT: a vertex stands twice in this element; expected another vertex at each corner"
        }
        Fault::Join => {
            "JOIN: these two elements do not fit; expected no common vertex, one, an edge of both, or a whole face of both, one on each side of it"
        }
    }
}

// One line: where, the name, what is wrong and what was expected.
pub fn explain(rt: &impl Eprint, refusal: Refusal) {
    let spot = spot_of(refusal, refuser_of(refusal.fault));
    let _ = eprintln!(rt; "{spot}: {}", sentence(refusal.fault));
}

// One line: which stream failed, and why.
pub fn explain_failure(rt: &impl Eprint, stream: &str, failure: &io::Error) {
    let _ = eprintln!(rt; "{stream}: {failure}");
}
