// The exports of the front for C: each function of `brine` under its name, with the same contract.
//
// A slice is a pointer and a length that counts numbers; an array of fixed size is a bare pointer. Each function returns the refusal number,
// 0 where it accepted, and writes the whole answer array: number, place, second number, then its own values, zeros where it refused.
#![tactic(auto)]

ghost use Rattle.std.specs.Prelude.{length};
ghost use Rattle.converting.specs.Converting.{conversion_into};
ghost use Rattle.writing.specs.Written.{write_vertex_verdict, write_element_verdict, write_end_verdict};
ghost use Rattle.brine.specs.Entries.{ReadFront, JudgeFront, CutFront, SignFront, TextFront};

use limits::ELEMENT_WIDTH;

// Reads a file into two tables, three numbers a vertex and nine an element; the values are how many vertices and elements.
#[unsafe(no_mangle)]
pub extern "C" fn brine_read(
    file: &[u8],
    vertices: &mut [i32],
    elements: &mut [u16],
    answer: &mut [u64; 5],
) -> u32
    ensures { ReadFront file.now vertices.old elements.old result answer.new vertices.new elements.new }
{
    brine::brine_read(file, vertices, elements, answer)
}

// Judges a table of elements; no values.
#[unsafe(no_mangle)]
pub extern "C" fn brine_judge(
    vertex_count: usize,
    element_count: usize,
    elements: &[u16],
    answer: &mut [u64; 3],
) -> u32
    ensures { JudgeFront vertex_count element_count elements.now result answer.new }
{
    brine::brine_judge(vertex_count, element_count, elements, answer)
}

// Cuts a table of elements into tetrahedra, four numbers each; the value is how many.
#[unsafe(no_mangle)]
pub extern "C" fn brine_cut(
    vertex_count: usize,
    element_count: usize,
    elements: &[u16],
    tetrahedra: &mut [u16],
    answer: &mut [u64; 4],
) -> u32
    ensures { CutFront vertex_count element_count elements.now tetrahedra.old result answer.new tetrahedra.new }
{
    brine::brine_cut(vertex_count, element_count, elements, tetrahedra, answer)
}

// Counts the signs of the cut; the values are positive, zero and negative tetrahedra, and unsound elements.
#[unsafe(no_mangle)]
pub extern "C" fn brine_signs(
    vertex_count: usize,
    element_count: usize,
    elements: &[u16],
    vertices: &[i32],
    answer: &mut [u64; 7],
) -> u32
    ensures { SignFront vertex_count element_count elements.now vertices.now result answer.new }
{
    brine::brine_signs(vertex_count, element_count, elements, vertices, answer)
}

// Writes the line of a vertex; the value is its length.
#[unsafe(no_mangle)]
pub extern "C" fn brine_write_vertex(
    x: i32,
    y: i32,
    z: i32,
    buffer: &mut [u8],
    answer: &mut [u64; 4],
) -> u32
    ensures { TextFront (write_vertex_verdict x y z (length buffer.old)) buffer.old result answer.new buffer.new }
{
    brine::brine_write_vertex(x, y, z, buffer, answer)
}

// Writes the line of an element; the value is its length.
#[unsafe(no_mangle)]
pub extern "C" fn brine_write_element(
    record: &[u16; ELEMENT_WIDTH],
    buffer: &mut [u8],
    answer: &mut [u64; 4],
) -> u32
    ensures { TextFront (write_element_verdict «record».now (length buffer.old)) buffer.old result answer.new buffer.new }
{
    brine::brine_write_element(record, buffer, answer)
}

// Writes EN with the two counts; the value is its length.
#[unsafe(no_mangle)]
pub extern "C" fn brine_write_end(
    vertices: usize,
    elements: usize,
    buffer: &mut [u8],
    answer: &mut [u64; 4],
) -> u32
    ensures { TextFront (write_end_verdict vertices elements (length buffer.old)) buffer.old result answer.new buffer.new }
{
    brine::brine_write_end(vertices, elements, buffer, answer)
}

// Converts a file into the cut mesh as text; the value is its length.
#[unsafe(no_mangle)]
pub extern "C" fn brine_convert(input: &[u8], output: &mut [u8], answer: &mut [u64; 4]) -> u32
    ensures { TextFront (conversion_into (length output.old) input.now) output.old result answer.new output.new }
{
    brine::brine_convert(input, output, answer)
}
