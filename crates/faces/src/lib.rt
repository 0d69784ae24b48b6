// The faces of an element in vertex numbers: one face as a cycle, its lowest corner and its diagonal.
#![tactic(auto)]

ghost use Rattle.std.specs.Prelude.{◌≡◌, [], ◌∷◌, min, get_or};
ghost use Rattle.laws.specs.Words.{among, lowest};
ghost use Rattle.solids.specs.Solids.{at, three, four, holds, faces_of};
ghost use Rattle.solids.specs.Rotations.{eq_face, same_face};
ghost use Rattle.solids.specs.Fit.{back_face};
ghost use Rattle.solids.specs.Cut.{lowest_first, on_diagonal};
ghost use Rattle.records.specs.Elements.{seen};
ghost use Rattle.faces.specs.Faces.{face_of};

use records::Element;
use solids::{Place, Vertex};

// A face in vertex numbers, its corners in their outward cycle.
#[derive(Clone, Copy, Debug, PartialEq, Eq)]
pub enum Face {
    Three(Vertex, Vertex, Vertex),
    Four(Vertex, Vertex, Vertex, Vertex),
}

// The vertex at a place of an element; 0, the page's own word for none, where there is none.
pub fn vertex_at(corners: &[u16], place: Place) -> Vertex
    ensures { result.0 ≡ at corners.now place.0 }
{
    // Place 0 turns into an index behind every corner.
    let index = usize::from(place.0).wrapping_sub(1);
    Vertex(corners.get(index).copied().unwrap_or(0))
}

// The lowest of three vertices; with the next, one function over a slice is no plainer for callers that name their vertices.
pub fn lowest_of_three(a: Vertex, b: Vertex, c: Vertex) -> Vertex
    ensures { result.0 ≡ lowest (a.0 ∷ b.0 ∷ c.0 ∷ []) }
{
    a.min(b.min(c))
}

// The lowest of four vertices.
pub fn lowest_of_four(a: Vertex, b: Vertex, c: Vertex, d: Vertex) -> Vertex
    ensures { result.0 ≡ lowest (a.0 ∷ b.0 ∷ c.0 ∷ d.0 ∷ []) }
{
    a.min(lowest_of_three(b, c, d))
}

// The face of an element, from 0; three zeros where there is none. Inlined for the innermost loop of fit: judging takes a tenth longer without.
#[inline(always)]
#[tactic(auto, using(crate::proofs::FaceLaws::read_three))]
pub fn face_of(element: Element, face: usize) -> Face
    ensures { face_of result ≡ get_or (faces_of (seen element.entry)) face (three 0 0 0) }
{
    let Element { solid, corners } = element;
    let p = vertex_at(corners, places::face_place(solid, face, 0));
    let q = vertex_at(corners, places::face_place(solid, face, 1));
    let r = vertex_at(corners, places::face_place(solid, face, 2));
    let last = places::face_place(solid, face, 3);
    if last.0 == 0 {
        return Face::Three(p, q, r);
    }
    Face::Four(p, q, r, vertex_at(corners, last))
}

// The cycle read backwards.
pub fn back(face: Face) -> Face
    ensures { face_of result ≡ back_face (face_of face) }
{
    match face {
        Face::Three(p, q, r) => Face::Three(p, r, q),
        Face::Four(p, q, r, s) => Face::Four(p, s, r, q),
    }
}

// The same cycle, read from any of its corners.
pub fn same(face: Face, other: Face) -> bool
    ensures { result ≡ same_face (face_of face) (face_of other) }
{
    match face {
        Face::Three(a, b, c) => {
            face == other || Face::Three(b, c, a) == other || Face::Three(c, a, b) == other
        }
        Face::Four(a, b, c, d) => {
            face == other
                || Face::Four(b, c, d, a) == other
                || Face::Four(c, d, a, b) == other
                || Face::Four(d, a, b, c) == other
        }
    }
}

// A vertex is a corner of the face.
pub fn is_corner(v: Vertex, face: Face) -> bool
    ensures { result ≡ holds v.0 (face_of face) }
{
    match face {
        Face::Three(p, q, r) => v == p || v == q || v == r,
        Face::Four(p, q, r, s) => v == p || v == q || v == r || v == s,
    }
}

// A four-cornered face turned so that its lowest vertex comes first.
pub fn lowest_first(face: Face) -> Face
    ensures { face_of result ≡ lowest_first (face_of face) }
{
    let Face::Four(p, q, r, s) = face else {
        return face;
    };
    let lowest = lowest_of_four(p, q, r, s);
    if p == lowest {
        face
    } else if q == lowest {
        Face::Four(q, r, s, p)
    } else if r == lowest {
        Face::Four(r, s, p, q)
    } else {
        Face::Four(s, p, q, r)
    }
}

// The diagonal of a turned face goes through a vertex.
pub fn on_diagonal(v: Vertex, face: Face) -> bool
    ensures { result ≡ on_diagonal v.0 (face_of face) }
{
    matches!(face, Face::Four(p, _, r, _) if v == p || v == r)
}
