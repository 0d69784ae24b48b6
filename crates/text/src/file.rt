// The verdict on a whole file: its lines in order, each judged and kept, threading the reader's state.
ghost use Rattle.std.specs.Prelude.{◌≡◌, position, ◌==◌};
ghost use Rattle.limits.specs.Limits.{line_end};
ghost use Rattle.format.specs.File.{at_end};
ghost use Rattle.text.specs.Reading.{verdict_of};
ghost use Rattle.text.specs.ReadingLoops.{Ready, Own, LineRead, FileRead};

use crate::ReadCounts;
use crate::line::{after, judge_line, open_line};
use crate::mark::{mark_of, role_of};
use crate::quick::quick_line;
use crate::store::keep_line;
use faults::{Fault, Refusal};
use format::{ReaderState, Rooms};
use limits::{ELEMENT_NUMBERS, FILE_LIMIT, LINE_END, VERTEX_NUMBERS};
use numbers::scan::{find, from};

// What the state after the last line says, where the next line would have number n.
#[tactic(auto, unfolding(crate::specs::Reading::verdict_of, format::specs::File::at_end))]
fn at_end(state: ReaderState, n: usize) -> Result<ReadCounts, Refusal>
    ensures { verdict_of result ≡ at_end state n }
{
    if state.ended {
        Ok(ReadCounts {
            vertices: state.vertices,
            elements: state.elements,
        })
    } else {
        Err(Refusal::at(Fault::End, n))
    }
}

// Where the line at the front of a text ends, if it does. Not inlined: inlined, the search takes longer for each byte.
#[inline(never)]
fn end_of_line(t: &[u8]) -> Option<usize>
    ensures { result ≡ position (λ x. x == line_end) t.now }
{
    find(t, LINE_END)
}

// The line at the front of a text, judged test by test, its record kept where it is accepted: the state after it, and how many bytes it takes with its byte 10.
fn judged_line(
    t: &[u8],
    rooms: Rooms,
    state: ReaderState,
    vertices: &mut [i32; VERTEX_NUMBERS],
    elements: &mut [u16; ELEMENT_NUMBERS],
) -> Result<(ReaderState, usize), Fault>
    requires { Ready t.now state vertices.old elements.old }
    ensures { LineRead t.now rooms state vertices.old elements.old result vertices.new elements.new }
{
    let Some(end) = end_of_line(t) else {
        return Err(open_line(state));
    };
    let line = &t[..end];
    let next = judge_line(line, rooms, state)?;
    keep_line(line, state, vertices, elements);
    Ok((next, line.len() + 1))
}

// The line at the front of a text: read quickly where it is beyond question, else judged.
fn read_line(
    t: &[u8],
    rooms: Rooms,
    state: ReaderState,
    vertices: &mut [i32; VERTEX_NUMBERS],
    elements: &mut [u16; ELEMENT_NUMBERS],
) -> Result<(ReaderState, usize), Fault>
    requires { Ready t.now state vertices.old elements.old }
    ensures { LineRead t.now rooms state vertices.old elements.old result vertices.new elements.new }
{
    let mark = mark_of(t);
    match quick_line(t, mark, rooms, state, vertices, elements) {
        Some(n) => Ok((after(state, role_of(mark)), n)),
        None => judged_line(t, rooms, state, vertices, elements),
    }
}

// The verdict on a file for lent tables of that room; the records of an accepted one are kept from the front of both tables.
// The tables stay two parameters: each record goes into one of them, so a struct of both would be taken apart wherever it is written.
pub fn read_lines(
    file: &[u8],
    rooms: Rooms,
    vertices: &mut [i32; VERTEX_NUMBERS],
    elements: &mut [u16; ELEMENT_NUMBERS],
) -> Result<ReadCounts, Refusal>
    requires { Own vertices.old elements.old }
    ensures { FileRead file.now rooms result vertices.new elements.new }
{
    if file.len() > FILE_LIMIT {
        return Err(Refusal::at(Fault::Long, 0));
    }
    let mut t = file;
    let mut state = ReaderState {
        vertices: 0,
        elements: 0,
        ended: false,
    };
    let mut n = 1; // counted by hand: the lines are no iterator, since only reading a line finds its end
    while !t.is_empty() {
        let (next, taken) = read_line(t, rooms, state, vertices, elements).map_err(
            |fault| Refusal::at(fault, n),
        )?;
        state = next;
        t = from(t, taken);
        n += 1;
    }
    at_end(state, n)
}
