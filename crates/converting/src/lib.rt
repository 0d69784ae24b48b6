// The whole conversion as one function on memory: a file is read, its table is cut, the cut mesh is written.
// The program only reads its input, calls `convert` and, where that refuses, `writing::write_refusal`, and writes.
#![tactic(auto)]

mod output;

ghost use Rattle.std.specs.Prelude.{◌/◌, length};
ghost use Rattle.limits.specs.Limits.{vertex_width, tetrahedron_width};
ghost use Rattle.writing.specs.Written.{in_room};
ghost use Rattle.converting.specs.Converting.{ConvertDone, Left};
ghost use Rattle.converting.specs.ConversionLoops.{mesh_text, cut_verdict};

use crate::output::{Lines, Tetrahedra, Vertices, put_mesh};
use faults::{Fault, Refusal};
use limits::{
    ELEMENT_NUMBERS, ELEMENT_WIDTH, TETRAHEDRON_LIMIT, TETRAHEDRON_NUMBERS, TETRAHEDRON_WIDTH,
    VERTEX_LIMIT, VERTEX_NUMBERS, VERTEX_WIDTH,
};
use mesh::cut_mesh;
use text::read_mesh;

// How long the text of a conversion is at most: 4,096 vertex lines of 30 bytes, 6,144 lines of tetrahedra of 23, EN of 13.
pub const LONGEST_OUTPUT: usize = 30 * VERTEX_LIMIT + 23 * TETRAHEDRON_LIMIT + 13;

// The cut mesh as text: made whole before a byte of it is stored, so that ROOM stores nothing.
// Its last lines are those of `store` in writing: to share them, writing would need one more public function, no plainer than the lines.
fn write_cut(
    vertices: &Vertices<'_>,
    tetrahedra: &Tetrahedra<'_>,
    output: &mut [u8],
) -> Result<usize, Refusal>
    ensures { Left (in_room (length output.old) (mesh_text vertices.now.numbers.now (length vertices.now.numbers.now / vertex_width) tetrahedra.now.numbers.now (length tetrahedra.now.numbers.now / tetrahedron_width))) output.old result output.new }
{
    let mut text = [0u8; LONGEST_OUTPUT];
    let n = put_mesh(vertices, tetrahedra, &mut text);
    if output.len() < n {
        return Err(Refusal::at(Fault::Room, 0));
    }
    output[..n].copy_from_slice(&text[..n]);
    Ok(n)
}

// A table that was read: cut, then written.
fn cut_and_write(
    vertices: &Vertices<'_>,
    elements: &[u16],
    element_count: usize,
    output: &mut [u8],
) -> Result<usize, Refusal>
    ensures { Left (cut_verdict vertices.now.numbers.now (length vertices.now.numbers.now / vertex_width) elements.now element_count (length output.old)) output.old result output.new }
{
    let mut numbers = [0u16; TETRAHEDRON_NUMBERS];
    let count = cut_mesh(vertices.count(), element_count, elements, &mut numbers)?.tetrahedra;
    let tetrahedra = Tetrahedra {
        numbers: &numbers[..TETRAHEDRON_WIDTH * count],
    };
    write_cut(vertices, &tetrahedra, output)
}

// Reads a file, cuts its table and leaves the cut mesh as text in the output; a refusal writes nothing.
pub fn convert(input: &[u8], output: &mut [u8]) -> Result<usize, Refusal>
    ensures { ConvertDone input.now output.old result output.new }
{
    let mut numbers = [0i32; VERTEX_NUMBERS];
    let mut elements = [0u16; ELEMENT_NUMBERS];
    let counts = read_mesh(input, &mut numbers, &mut elements)?;
    let vertices = Vertices {
        numbers: &numbers[..VERTEX_WIDTH * counts.vertices],
    };
    let elements = &elements[..ELEMENT_WIDTH * counts.elements];
    cut_and_write(&vertices, elements, counts.elements, output)
}
