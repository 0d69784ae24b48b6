// The block of a hexahedron, by its row of the table of cuts.
ghost use Rattle.std.specs.Prelude.{◌≡◌, map, ◌≤◌, ◌<◌, T, length};
ghost use Rattle.solids.specs.declared.Solid.TheVariants.{Hexahedron};
ghost use Rattle.solids.specs.Solids.{element, on_tet, at, opposite, faces_of};
ghost use Rattle.solids.specs.Cut.{in_order};
ghost use Rattle.solids.specs.Rows.{row_places, row_place, row_tets, row_of, cut_by_row};
ghost use Rattle.solids.specs.Fit.{proper};
ghost use Rattle.faces.specs.Faces.{face_of};
ghost use Rattle.tets.specs.Tets.{tet_of};
ghost use Rattle.blocks.specs.BlockLoops.{choice, with_bit, joined, row_tet, row_tets_at};

use crate::block::Block;
use crate::lowest::lowest_place;
use faces::{Face, vertex_at};
use records::Element;
use solids::{Place, Solid, Vertex};
use tets::Tet;

// The places opposite to those of the hexahedron.
const OPPOSITE: [u8; 8] = [7, 8, 5, 6, 3, 4, 1, 2];

// The place opposite to a place of the hexahedron.
fn opposite_place(place: Place) -> Place
    requires { (1 ≤ place.0) × (place.0 ≤ 8) }
    ensures { result.0 ≡ opposite place.0 }
{
    Place(OPPOSITE[usize::from(place.0) - 1])
}

// The choice of diagonals with the bit of one more face, if that is far from the lowest corner.
#[tactic(auto, unfolding(crate::specs::BlockLoops::with_bit))]
fn with_bit(choice: usize, low: Vertex, high: Vertex, face: Face) -> usize
    requires { choice < 64 }
    ensures { result ≡ with_bit low.0 high.0 (face_of face) choice }
{
    if faces::is_corner(low, face) {
        choice
    } else {
        usize::from(faces::on_diagonal(high, faces::lowest_first(face))) + 2 * choice
    }
}

// The choice of far diagonals of a hexahedron, the bit of its first far face last.
fn diagonals(corners: &[u16], low: Vertex, high: Vertex) -> usize
    ensures choice { result ≡ choice low.0 high.0 (faces_of (element Hexahedron corners.now)) }
    ensures few { result < 64 }
{
    let hexahedron = Element {
        solid: Solid::Hexahedron,
        corners,
    };
    // Not by `fold`, whose closure would have to know at each call that the choice stays below 64: that did not prove.
    let mut choice = 0;
    for i in (0..6).rev() {
        choice = with_bit(choice, low, high, faces::face_of(hexahedron, i));
    }
    choice
}

// The row of a hexahedron: that of its lowest corner and its three far diagonals.
#[tactic(auto, using(crate::proofs::CornerLaws::proper_cornered))]
fn row_of(corners: &[u16]) -> usize
    requires { T (proper (element Hexahedron corners.now)) }
    ensures { result ≡ row_of corners.now }
{
    let place = lowest_place(corners);
    let low = vertex_at(corners, place);
    let high = vertex_at(corners, opposite_place(place));
    8 * (usize::from(place.0) - 1) + diagonals(corners, low, high)
}

// A hexahedron's corners, and the number of the row of the table of cuts by which it is cut.
#[derive(Clone, Copy)]
struct Row<'a> {
    corners: &'a [u16],
    number: usize,
    ghost below: { number < 64 },
}

impl<'a> Row<'a> {
    // The corner at the place that stands at an index of the row.
    fn vertex(&self, i: usize) -> Vertex
        ensures { result.0 ≡ at self.now.corners.now (row_place self.now.number i) }
    {
        vertex_at(self.corners, places::row_place(self.number, i))
    }

    // The tetrahedron k, from 0, in vertex numbers.
    fn tet(&self, k: usize) -> Tet
        requires { k < 6 }
        ensures { tet_of result ≡ on_tet (at self.now.corners.now) (row_tet self.now.number k) }
    {
        Tet(
            self.vertex(4 * k),
            self.vertex(4 * k + 1),
            self.vertex(4 * k + 2),
            self.vertex(4 * k + 3),
        )
    }

    // The tetrahedron k, from 0, added to a block; four zeros are none.
    #[tactic(auto, using(crate::proofs::RowTetLaws::row_none, crate::proofs::RowTetLaws::row_one))]
    fn add_tet(&self, block: &mut Block, k: usize)
        requires k_bound { k < 6 }
        requires room { length block.old < 6 }
        ensures { block.new ≡ joined (row_tets_at self.now.corners.now self.now.number k) block.old }
    {
        if places::row_place(self.number, 4 * k).0 != 0 {
            block.add(self.tet(k));
        }
    }

    // The tetrahedra of the row, in order.
    fn block(&self) -> Block
        ensures { result ≡ in_order (map (on_tet (at self.now.corners.now)) (row_tets (row_places self.now.number))) }
    {
        let mut block = Block::new();
        for k in (0..6).rev() {
            self.add_tet(&mut block, k);
        }
        block
    }
}

// A hexahedron's tetrahedra, by its row of the table of cuts.
#[tactic(auto, using(crate::proofs::CornerLaws::row_below))]
pub fn row_block(corners: &[u16]) -> Block
    requires { T (proper (element Hexahedron corners.now)) }
    ensures { result ≡ cut_by_row corners.now }
{
    let number = row_of(corners);
    Row { corners, number }.block()
}
