// The block of an element by the page's rule: its lowest corner, followed by each triangle of the cut faces that do not hold it.
ghost use Rattle.std.specs.Prelude.{◌≡◌, map, ◌+◌, ◌≤◌, length};
ghost use Rattle.solids.specs.Cut.{halves, follow, fan, in_order};
ghost use Rattle.faces.specs.Faces.{face_of};
ghost use Rattle.records.specs.Elements.{seen};
ghost use Rattle.blocks.specs.BlockLoops.{Cornered, joined, face_tets};

use crate::block::Block;
use crate::lowest::lowest_corner;
use faces::Face;
use records::Element;
use solids::Vertex;
use tets::Tet;

// A vertex followed by each triangle of a face, added to a block.
#[tactic(auto, using(crate::proofs::BlockLaws::length_insert))]
fn add_triangles(block: &mut Block, v: Vertex, face: Face)
    requires { length block.old + length (halves (face_of face)) ≤ 6 }
    ensures { block.new ≡ joined (map (follow v.0) (halves (face_of face))) block.old }
{
    match face {
        Face::Three(p, q, r) => block.add(Tet(v, p, q, r)),
        Face::Four(p, q, r, s) => {
            block.add(Tet(v, p, r, s));
            block.add(Tet(v, p, q, r));
        }
    }
}

// The lowest corner followed by each triangle of a cut face, added to a block if the face is far from it.
#[tactic(auto, using(crate::proofs::FanLaws::near_tets, crate::proofs::FanLaws::far_tets))]
fn add_face(block: &mut Block, low: Vertex, face: Face)
    requires { length block.old + length (face_tets low.0 (face_of face)) ≤ 6 }
    ensures { block.new ≡ joined (face_tets low.0 (face_of face)) block.old }
{
    if !faces::is_corner(low, face) {
        add_triangles(block, low, faces::lowest_first(face));
    }
}

// The lowest corner followed by each triangle of the cut faces that do not hold it.
pub fn fan_block(element: Element) -> Block
    requires cornered { Cornered element.corners.now }
    requires few { length (fan (seen element)) ≤ 6 }
    ensures { result ≡ in_order (fan (seen element.entry)) }
{
    let low = lowest_corner(element.corners);
    let mut block = Block::new();
    for i in (0..places::face_count(element.solid)).rev() {
        add_face(&mut block, low, faces::face_of(element, i));
    }
    block
}
