// The record writers: one record a call, as a line of text into a lent buffer, and the line of a refusal.
#![tactic(auto)]

mod written;

ghost use Rattle.std.specs.Prelude.{◌≡◌, ◌≤◌, ℕ, List, length};
ghost use Rattle.limits.specs.Limits.{vertex_limit};
ghost use Rattle.records.specs.Record.{record_finding};
ghost use Rattle.writing.specs.Written.{closed, vertex_line, element_line, in_room, write_vertex_verdict, write_element_verdict, write_end_verdict};
ghost use Rattle.writing.specs.Writing.{write_refusal_verdict, WriteDone};
ghost use Rattle.writing.specs.WriteLoops.{capacity, PutsLine};

use crate::written::{element_line, end_line, refusal_line, vertex_line};
use faults::{Fault, Refusal};
use limits::{ELEMENT_WIDTH, TETRAHEDRON_LIMIT, VERTEX_LIMIT};
use records::judge_record;
use volume::{Point, point_in_range};

// How long a line is at most.
const CAPACITY: usize = 48;

// A text into a buffer, from its front; ROOM, and nothing stored, where the buffer is too short.
fn store(text: &[u8], buffer: &mut [u8]) -> Result<usize, Refusal>
    ensures { WriteDone (in_room (length buffer.old) text.now) buffer.old result buffer.new }
{
    let n = text.len();
    if buffer.len() < n {
        return Err(Refusal::at(Fault::Room, 0));
    }
    buffer[..n].copy_from_slice(text);
    Ok(n)
}

// The line that a call puts: straight into a buffer that has room for any line, else stored from memory of its own, if there is room.
fn write_line<F: FnOnce(&mut [u8]) -> usize>(put: F, buffer: &mut [u8]) -> Result<usize, Refusal>
    requires callable { F.IsAlwaysCallable put }
    requires short { (line : List ℕ) × (length line ≤ capacity) × PutsLine F.FnOnce put line }
    ensures { (line : List ℕ) → length line ≤ capacity → PutsLine F.FnOnce put line
        → WriteDone (in_room (length buffer.old) line) buffer.old result buffer.new }
{
    if CAPACITY <= buffer.len() {
        return Ok(put(buffer));
    }
    let mut line = [0u8; CAPACITY];
    let n = put(&mut line);
    store(&line[..n], buffer)
}

// The record of a vertex: RANGE, then ROOM.
pub fn write_vertex(x: i32, y: i32, z: i32, buffer: &mut [u8]) -> Result<usize, Refusal>
    ensures { WriteDone (write_vertex_verdict x y z (length buffer.old)) buffer.old result buffer.new }
{
    if !point_in_range(Point { x, y, z }) {
        return Err(Refusal::at(Fault::Range, 1));
    }
    write_line(|line| vertex_line(line, x, y, z), buffer)
}

// The record of an element: KIND, VERTEX, SPARE, REPEAT, then ROOM.
pub fn write_element(element: [u16; ELEMENT_WIDTH], buffer: &mut [u8]) -> Result<usize, Refusal>
    ensures { WriteDone (write_element_verdict element (length buffer.old)) buffer.old result buffer.new }
{
    match judge_record(&element, VERTEX_LIMIT) {
        Err(fault) => Err(Refusal::at(fault, 1)),
        Ok(()) => write_line(|line| element_line(line, element), buffer),
    }
}

// EN with the counts of the file: MANY, then ROOM.
pub fn write_end(vertices: usize, elements: usize, buffer: &mut [u8]) -> Result<usize, Refusal>
    ensures { WriteDone (write_end_verdict vertices elements (length buffer.old)) buffer.old result buffer.new }
{
    if VERTEX_LIMIT < vertices || TETRAHEDRON_LIMIT < elements {
        return Err(Refusal::at(Fault::Many, 0));
    }
    write_line(|line| end_line(line, vertices, elements), buffer)
}

// The line of a refusal: ROOM.
pub fn write_refusal(refusal: Refusal, buffer: &mut [u8]) -> Result<usize, Refusal>
    ensures { WriteDone (write_refusal_verdict refusal (length buffer.old)) buffer.old result buffer.new }
{
    write_line(|line| refusal_line(line, refusal), buffer)
}
