// The front for other languages: each entry under a plain name, with its answer as the page's numbers. The crate `brine_c` exports these functions.
//
// Each function returns the refusal number, 0 where it accepted, and writes the whole answer array: number, place, second number, then its own
// values, zeros where it refused.
#![tactic(auto)]

mod told;

ghost use Rattle.std.specs.Prelude.{length};
ghost use Rattle.converting.specs.Converting.{conversion_into};
ghost use Rattle.writing.specs.Written.{write_vertex_verdict, write_element_verdict, write_end_verdict};
ghost use Rattle.brine.specs.Entries.{ReadFront, JudgeFront, CutFront, SignFront, TextFront};

use converting::convert;
use judging::judge_mesh;
use limits::ELEMENT_WIDTH;
use mesh::cut_mesh;
use signs::sign_report;
use text::read_mesh;
use told::tell;
use writing::{write_element, write_end, write_vertex};

// Reads a file into two tables, three numbers a vertex and nine an element; the values are how many vertices and elements.
pub fn brine_read(
    file: &[u8],
    vertices: &mut [i32],
    elements: &mut [u16],
    answer: &mut [u64; 5],
) -> u32
    ensures { ReadFront file.now vertices.old elements.old result answer.new vertices.new elements.new }
{
    let read = read_mesh(file, vertices, elements);
    tell(read, answer)
}

// Judges a table of elements; no values.
pub fn brine_judge(
    vertex_count: usize,
    element_count: usize,
    elements: &[u16],
    answer: &mut [u64; 3],
) -> u32
    ensures { JudgeFront vertex_count element_count elements.now result answer.new }
{
    let judged = judge_mesh(vertex_count, element_count, elements);
    tell(judged, answer)
}

// Cuts a table of elements into tetrahedra, four numbers each; the value is how many.
pub fn brine_cut(
    vertex_count: usize,
    element_count: usize,
    elements: &[u16],
    tetrahedra: &mut [u16],
    answer: &mut [u64; 4],
) -> u32
    ensures { CutFront vertex_count element_count elements.now tetrahedra.old result answer.new tetrahedra.new }
{
    let cut = cut_mesh(vertex_count, element_count, elements, tetrahedra);
    tell(cut, answer)
}

// Counts the signs of the cut; the values are positive, zero and negative tetrahedra, and unsound elements.
pub fn brine_signs(
    vertex_count: usize,
    element_count: usize,
    elements: &[u16],
    vertices: &[i32],
    answer: &mut [u64; 7],
) -> u32
    ensures { SignFront vertex_count element_count elements.now vertices.now result answer.new }
{
    let signs = sign_report(vertex_count, element_count, elements, vertices);
    tell(signs, answer)
}

// Writes the line of a vertex; the value is its length.
pub fn brine_write_vertex(x: i32, y: i32, z: i32, buffer: &mut [u8], answer: &mut [u64; 4]) -> u32
    ensures { TextFront (write_vertex_verdict x y z (length buffer.old)) buffer.old result answer.new buffer.new }
{
    let written = write_vertex(x, y, z, buffer);
    tell(written, answer)
}

// Writes the line of an element; the value is its length.
pub fn brine_write_element(
    record: &[u16; ELEMENT_WIDTH],
    buffer: &mut [u8],
    answer: &mut [u64; 4],
) -> u32
    ensures { TextFront (write_element_verdict «record».now (length buffer.old)) buffer.old result answer.new buffer.new }
{
    let element = *record;
    let written = write_element(element, buffer);
    tell(written, answer)
}

// Writes EN with the two counts; the value is its length.
pub fn brine_write_end(
    vertices: usize,
    elements: usize,
    buffer: &mut [u8],
    answer: &mut [u64; 4],
) -> u32
    ensures { TextFront (write_end_verdict vertices elements (length buffer.old)) buffer.old result answer.new buffer.new }
{
    let written = write_end(vertices, elements, buffer);
    tell(written, answer)
}

// Converts a file into the cut mesh as text; the value is its length.
pub fn brine_convert(input: &[u8], output: &mut [u8], answer: &mut [u64; 4]) -> u32
    ensures { TextFront (conversion_into (length output.old) input.now) output.old result answer.new output.new }
{
    let converted = convert(input, output);
    tell(converted, answer)
}
