// The text file: reading it into two lent tables.
#![tactic(auto)]

mod field;
mod file;
mod line;
mod mark;
mod quick;
mod store;

ghost use Rattle.text.specs.Reading.{ReadDone};

use faults::Refusal;
use format::Rooms;
use limits::{ELEMENT_NUMBERS, ELEMENT_WIDTH, VERTEX_NUMBERS, VERTEX_WIDTH};

// How many vertices and elements the file gave.
#[derive(Clone, Copy, Debug, PartialEq, Eq)]
pub struct ReadCounts {
    pub vertices: usize,
    pub elements: usize,
}

// Reads a file: three numbers a vertex into one table, nine an element into the other; a refused file leaves both alone.
pub fn read_mesh(
    file: &[u8],
    vertices: &mut [i32],
    elements: &mut [u16],
) -> Result<ReadCounts, Refusal>
    ensures { ReadDone file.now vertices.old elements.old result vertices.new elements.new }
{
    let rooms = Rooms {
        vertices: vertices.len(),
        elements: elements.len(),
    };
    let mut kept_vertices = [0i32; VERTEX_NUMBERS];
    let mut kept_elements = [0u16; ELEMENT_NUMBERS];
    let counts = file::read_lines(file, rooms, &mut kept_vertices, &mut kept_elements)?;
    let n = VERTEX_WIDTH * counts.vertices;
    let m = ELEMENT_WIDTH * counts.elements;
    vertices[..n].copy_from_slice(&kept_vertices[..n]);
    elements[..m].copy_from_slice(&kept_elements[..m]);
    Ok(counts)
}
