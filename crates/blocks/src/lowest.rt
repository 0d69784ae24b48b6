// An element's lowest corner, and its place.
ghost use Rattle.std.specs.Prelude.{◌≡◌, ◌≤◌};
ghost use Rattle.laws.specs.Words.{lowest};
ghost use Rattle.solids.specs.Cut.{first};
ghost use Rattle.blocks.specs.BlockLoops.{Cornered};

use faces::vertex_at;
use solids::{Place, Vertex};

// The place of the lowest number.
// `Cornered` is a fact about the corners of one element, given where whole records are taken apart: a type for it, made at each call, is no plainer.
pub fn lowest_place(corners: &[u16]) -> Place
    requires { Cornered corners.now }
    ensures lowest { result.0 ≡ first corners.now }
    ensures within { (1 ≤ result.0) × (result.0 ≤ 8) }
{
    // Not by `min_by_key`, which was slower: 23 against 8 nanoseconds.
    let (mut place, mut lowest) = (0, corners[0]);
    for i in 1..corners.len() {
        if corners[i] < lowest {
            (place, lowest) = (i, corners[i]);
        }
    }
    Place(place as u8 + 1)
}

// The lowest corner, by its place: `min` would answer with an option, to be unwrapped here.
#[tactic(auto, using(crate::proofs::CornerLaws::lowest_corner))]
pub fn lowest_corner(corners: &[u16]) -> Vertex
    requires { Cornered corners.now }
    ensures { result.0 ≡ lowest corners.now }
{
    vertex_at(corners, lowest_place(corners))
}
