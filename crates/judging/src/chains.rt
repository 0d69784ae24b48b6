// The places of a table by their vertices: for each vertex the chain of the places that hold it, so that an element meets only those it has a vertex in common with.
ghost use Rattle.std.specs.Prelude.{◌≡◌, not, ◌+◌, ◌<◌, ltb};
ghost use Rattle.judging.specs.Judge.{misfit};
ghost use Rattle.judging.specs.Marks.{Meeting, Met, Walking, Walked};

use crate::misfits::pair_fits;
use crate::numbered::NumberedTable;
use limits::{ELEMENT_LIMIT, ELEMENT_NUMBERS, ELEMENT_WIDTH, VERTEX_LIMIT};
use solids::Vertex;
use std::marker::Model;

// What is known of a filed element and the next one, whose vertices are gone through.
#[derive(Clone, Copy, Debug, PartialEq, Eq)]
enum Mark {
    Unmet,
    MetOnce,
    Fits,
}

// The places of a table's first elements, filed by their vertices.
#[derive(Drop)]
pub struct Chains<'a> {
    table: NumberedTable<'a>,
    filed: usize,
    // The last place of each vertex, and for each place the one before it of the same vertex; 0 is no place, and an Option would make both twice as long.
    heads: [u16; VERTEX_LIMIT + 1],
    links: [u16; ELEMENT_NUMBERS],
}

impl<'a> Model for Chains<'a> {
    ghost use Rattle.std.specs.Prelude.{◌*◌};
    ghost use Rattle.limits.specs.Limits.{element_width};
    ghost use Rattle.judging.specs.Chained.{Chained, Filed};

    ghost Value = { Chained };

    ghost view = { λ c. record { table = c.table.elements.now; count = c.table.count; filed = c.filed } };

    ghost invariant = { λ c. Filed c.table.elements.now (element_width * c.filed) c.heads c.links };
}

// Meets element i at one more vertex of element j; when they meet again, they are tested. False where they do not fit.
#[tactic(auto, using(crate::proofs::ChainLaws::met_first, crate::proofs::ChainLaws::met_known, crate::proofs::ChainLaws::met_bad, crate::proofs::ChainLaws::met_fit))]
fn meet(table: &[u16], i: usize, j: usize, marks: &mut [Mark; ELEMENT_LIMIT]) -> bool
    requires { Meeting table.now i j marks.old }
    ensures { Met table.now i j marks.old marks.new result }
{
    match marks[i] {
        Mark::Unmet => {
            marks[i] = Mark::MetOnce;
            true
        }
        Mark::MetOnce => {
            if !pair_fits(table, i, j) {
                return false;
            }
            marks[i] = Mark::Fits;
            true
        }
        Mark::Fits => true,
    }
}

impl<'a> Chains<'a> {
    // No element is filed.
    pub fn new(table: NumberedTable<'a>) -> Chains<'a>
        ensures { result ≡ record { table = table.entry.elements.now; count = table.entry.count; filed = 0 } }
    {
        Chains {
            table,
            filed: 0,
            heads: [0; VERTEX_LIMIT + 1],
            links: [0; ELEMENT_NUMBERS],
        }
    }

    // The next element meets each filed one that holds the vertex; false where one of them does not fit it.
    fn chain_fits(&self, vertex: Vertex, marks: &mut [Mark; ELEMENT_LIMIT]) -> bool
        requires { Walking self.now.table self.now.filed vertex.0 marks.old }
        ensures { Walked self.now.table self.now.filed vertex.0 marks.old marks.new result }
    {
        let mut x = usize::from(self.heads[usize::from(vertex.0)]);
        while 0 < x {
            if !meet(self.table.elements, x / ELEMENT_WIDTH, self.filed, marks) {
                return false;
            }
            x = usize::from(self.links[x]);
        }
        true
    }

    // The next element fits each filed one.
    pub fn fits_next(&self) -> bool
        requires { self.now.filed < self.now.count }
        ensures { result ≡ not (ltb 0 (misfit self.now.table self.now.filed)) }
    {
        let mut marks = [Mark::Unmet; ELEMENT_LIMIT];
        // A loop and not `all`: each step changes the marks, and the test of an `all` is read as a question that changes nothing.
        for &vertex in records::corners_of(records::record_at(self.table.elements, self.filed)) {
            if !self.chain_fits(Vertex(vertex), &mut marks) {
                return false;
            }
        }
        true
    }

    // Puts the places of the next element at the front of the chains of their vertices.
    pub fn file_next(&mut self)
        requires { self.old.filed < self.old.count }
        ensures { self.new ≡ record self.old { filed = self.old.filed + 1 } }
    {
        let start = ELEMENT_WIDTH * self.filed;
        for x in start + 1..start + ELEMENT_WIDTH {
            let v = usize::from(self.table.elements[x]);
            self.links[x] = self.heads[v];
            self.heads[v] = x as u16;
        }
        self.filed += 1;
    }
}
