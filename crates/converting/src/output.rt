// The text of a cut mesh, put from the front of lent memory: vertices, tetrahedra, EN.
ghost use Rattle.std.specs.Prelude.{◌≡◌, ℕ, List, ◌*◌, ◌/◌, ◌<◌, ◌≤◌, length};
ghost use Rattle.limits.specs.Limits.{vertex_limit, tetrahedron_limit, vertex_width, tetrahedron_width};
ghost use Rattle.writing.specs.Written.{closed, end_line};
ghost use Rattle.converting.specs.Converting.{longest_output, longest_vertex, longest_tetrahedron, longest_end};
ghost use Rattle.converting.specs.ConversionLoops.{Put, vertex_text, tetrahedron_text, text_to, mesh_text, GoodVertices, GoodTetrahedra};

use limits::{TETRAHEDRON_WIDTH, VERTEX_WIDTH};
use records::tetrahedron_record;
use solids::Vertex;
use writing::{write_element, write_end, write_vertex};

// Vertices within the limits, three numbers each.
#[derive(Clone, Copy)]
pub struct Vertices<'a> {
    pub numbers: &'a [i32],
    ghost good: { GoodVertices numbers.now (length numbers.now / vertex_width) },
}

// Tetrahedra without a fault, four numbers each.
#[derive(Clone, Copy)]
pub struct Tetrahedra<'a> {
    pub numbers: &'a [u16],
    ghost good: { GoodTetrahedra numbers.now (length numbers.now / tetrahedron_width) },
}

// Records that are written one a line.
pub trait Lines {
    // How many there are, the line of record k, from 0, and how long a line is at most.
    ghost count: { Self → ℕ };

    ghost line: { Self → ℕ → List ℕ };

    ghost longest: { ℕ };

    fn count(&self) -> usize
        ensures { result ≡ count self.now };

    // The line of record k; its length.
    fn put(&self, k: usize, out: &mut [u8]) -> usize
        requires within { k < count self.now }
        requires room { longest ≤ length out.old }
        ensures { Put longest (line self.now k) out.old result out.new };
}

impl Lines for Vertices<'_> {
    ghost count = { λ vertices. length vertices.numbers.now / vertex_width };

    ghost line = { λ vertices. vertex_text vertices.numbers.now };

    ghost longest = { longest_vertex };

    fn count(&self) -> usize {
        self.numbers.len() / VERTEX_WIDTH
    }

    fn put(&self, k: usize, out: &mut [u8]) -> usize {
        let at = VERTEX_WIDTH * k;
        let (x, y, z) = (self.numbers[at], self.numbers[at + 1], self.numbers[at + 2]);
        write_vertex(x, y, z, out).unwrap()
    }
}

impl Lines for Tetrahedra<'_> {
    ghost count = { λ tetrahedra. length tetrahedra.numbers.now / tetrahedron_width };

    ghost line = { λ tetrahedra. tetrahedron_text tetrahedra.numbers.now };

    ghost longest = { longest_tetrahedron };

    fn count(&self) -> usize {
        self.numbers.len() / TETRAHEDRON_WIDTH
    }

    fn put(&self, k: usize, out: &mut [u8]) -> usize {
        let at = TETRAHEDRON_WIDTH * k;
        let record = tetrahedron_record(
            Vertex(self.numbers[at]),
            Vertex(self.numbers[at + 1]),
            Vertex(self.numbers[at + 2]),
            Vertex(self.numbers[at + 3]),
        );
        write_element(record, out).unwrap()
    }
}

// The lines of all records, one after the other; their length.
fn put_lines<L: Lines>(records: &L, out: &mut [u8]) -> usize
    requires { L.longest * L.count records.now ≤ length out.old }
    ensures { Put (L.longest * L.count records.now) (text_to (L.line records.now) (L.count records.now)) out.old result out.new }
{
    let mut at = 0;
    for k in 0..records.count() {
        at += records.put(k, &mut out[at..]);
    }
    at
}

// EN with the two counts; its length.
fn put_end(vertices: usize, tetrahedra: usize, out: &mut [u8]) -> usize
    requires few_vertices { vertices ≤ vertex_limit }
    requires few_tetrahedra { tetrahedra ≤ tetrahedron_limit }
    requires room { longest_end ≤ length out.old }
    ensures { Put longest_end (closed (end_line vertices tetrahedra)) out.old result out.new }
{
    write_end(vertices, tetrahedra, out).unwrap()
}

// All vertices, all tetrahedra, then EN with their counts; the length of the text.
pub fn put_mesh(vertices: &Vertices<'_>, tetrahedra: &Tetrahedra<'_>, out: &mut [u8]) -> usize
    requires { longest_output ≤ length out.old }
    ensures { Put longest_output (mesh_text vertices.now.numbers.now (length vertices.now.numbers.now / vertex_width) tetrahedra.now.numbers.now (length tetrahedra.now.numbers.now / tetrahedron_width)) out.old result out.new }
{
    let first = put_lines(vertices, out);
    let second = first + put_lines(tetrahedra, &mut out[first..]);
    second + put_end(vertices.count(), tetrahedra.count(), &mut out[second..])
}
