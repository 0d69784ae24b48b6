// The common vertices of two elements.
ghost use Rattle.std.specs.Prelude.{◌≡◌, [], ◌∷◌, ◌++◌, ◌≤◌, ◌<◌, length};
ghost use Rattle.limits.specs.Limits.{corner_width};
ghost use Rattle.solids.specs.Fit.{common};
ghost use Rattle.records.specs.Elements.{seen};

use limits::CORNER_WIDTH;
use records::{Element, is_among};
use solids::Vertex;
use std::marker::Model;

// At most as many vertices as an element has corners; a dozen lines of our own, because the house stands on std alone and crates.txt lists no library of arrays with a length.
#[derive(Drop)]
pub struct Common {
    count: usize,
    vertices: [u16; CORNER_WIDTH],
}

impl Model for Common {
    ghost use Rattle.std.specs.Prelude.{List, ℕ, ◌≤◌, take};
    ghost use Rattle.limits.specs.Limits.{corner_width};

    ghost Value = { List ℕ };

    ghost view = { λ c. take c.count c.vertices };

    ghost invariant = { λ c. c.count ≤ corner_width };
}

impl Common {
    // None so far.
    pub fn new() -> Common
        ensures { result ≡ [] }
    {
        Common {
            count: 0,
            vertices: [0; CORNER_WIDTH],
        }
    }

    fn push(&mut self, vertex: u16)
        requires { length self.old < corner_width }
        ensures { self.new ≡ self.old ++ vertex ∷ [] }
    {
        self.vertices[self.count] = vertex;
        self.count += 1;
    }

    // The corners of an element that are corners of its neighbour too, in their order. Filled in place, since a value that is returned would be copied once more.
    pub fn fill(&mut self, element: Element, neighbour: Element)
        requires none { self.old ≡ [] }
        requires few { length element.corners.now ≤ corner_width }
        ensures { self.new ≡ common (seen element.entry) (seen neighbour.entry) }
    {
        for &vertex in element.corners {
            if is_among(Vertex(vertex), neighbour.corners) {
                self.push(vertex);
            }
        }
    }

    pub fn as_slice(&self) -> &[u16]
        ensures { result.now ≡ self.now }
    {
        &self.vertices[..self.count]
    }
}
