// The places that code looks up: those of the faces of a solid, and those of the hexahedron's cuts. Each table is proved to be what the page's definitions give.
#![tactic(auto)]

ghost use Rattle.std.specs.Prelude.{◌≡◌};
ghost use Rattle.solids.specs.Solids.{face_count, face_place};
ghost use Rattle.solids.specs.Rows.{row_place, cut_places};

use solids::{Place, Solid};
use tables::{CUTS, faces_of};

mod tables;

// How many faces a solid has.
#[tactic(auto, using(crate::proofs::PlaceTableLaws::padded_count))]
pub fn face_count(solid: Solid) -> usize
    ensures { result ≡ face_count solid }
{
    faces_of(solid).len()
}

// The place `corner` of the face `face` of a solid, both from 0; none where there is no such place.
// None is 0, not an Option: the page's own definitions of places say it so.
#[tactic(auto, using(crate::proofs::PlaceTableLaws::found_place, crate::proofs::PlaceTableLaws::no_place))]
pub fn face_place(solid: Solid, face: usize, corner: usize) -> Place
    ensures { result.0 ≡ face_place solid face corner }
{
    let Some(places) = faces_of(solid).get(face) else {
        return Place(0);
    };
    Place(places.get(corner).copied().unwrap_or(0))
}

// The place `at` of a row of the hexahedron's cuts, both from 0; none where there is no such place.
// None is 0, as for a face: the page fills the sixth tetrahedron of a five-row with zeros.
pub fn row_place(row: usize, at: usize) -> Place
    ensures { result.0 ≡ row_place row at }
{
    if row < 64 && at < 24 {
        Place(CUTS[row * 24 + at])
    } else {
        Place(0)
    }
}

// The hexahedron's cuts whole: the places of all rows, one row after the other.
pub fn cut_places() -> [u8; 1536]
    ensures { result ≡ cut_places }
{
    CUTS
}
