// Whether two elements fit, as the page says it: the verdict of a pair of records.
#![tactic(auto)]

ghost use Rattle.std.specs.Prelude.{◌≡◌, ◌&&◌, [], ◌∷◌, ◌<◌, length};
ghost use Rattle.laws.specs.Words.{some};
ghost use Rattle.solids.specs.Solids.{of_face, faces_of};
ghost use Rattle.solids.specs.Rotations.{same_face};
ghost use Rattle.solids.specs.Fit.{same_set, has_edge, back_face, share_face, fits};
ghost use Rattle.records.specs.Record.{element_of};
ghost use Rattle.records.specs.Elements.{seen};
ghost use Rattle.faces.specs.Faces.{face_of};

use common::Common;
use faces::Face;
use records::Element;
use solids::Vertex;

mod common;
mod sets;

// Two elements.
#[derive(Clone, Copy, Debug)]
struct Pair<'a> {
    element: Element<'a>,
    neighbour: Element<'a>,
}

// The cycle of the face is that of a face of the element.
fn has_face(face: Face, element: Element) -> bool
    ensures { result ≡ some (same_face (face_of face)) (faces_of (seen element.entry)) }
{
    (0..places::face_count(element.solid)).any(|i| faces::same(face, faces::face_of(element, i)))
}

// The vertices are all those of the face, and its cycle read backwards is that of a face of the element.
fn is_shared(vertices: &[u16], face: Face, element: Element) -> bool
    ensures { result ≡ (same_set vertices.now (of_face (face_of face)) && some (same_face (back_face (face_of face))) (faces_of (seen element.entry))) }
{
    sets::has_corners(vertices, face) && has_face(faces::back(face), element)
}

impl<'a> Pair<'a> {
    // Two vertices are the ends of an edge of both elements.
    fn has_edge(self, u: Vertex, v: Vertex) -> bool
        ensures { result ≡ (has_edge (u.0 ∷ v.0 ∷ []) (seen self.entry.element) && has_edge (u.0 ∷ v.0 ∷ []) (seen self.entry.neighbour)) }
    {
        edges::has_edge(u, v, self.element) && edges::has_edge(u, v, self.neighbour)
    }

    // The vertices, however often they stand, are the two ends of an edge of both elements.
    fn share_any_edge(self, vertices: &[u16]) -> bool
        requires { 0 < length vertices.now }
        ensures { result ≡ (has_edge vertices.now (seen self.entry.element) && has_edge vertices.now (seen self.entry.neighbour)) }
    {
        let u = Vertex(vertices[0]);
        // Where every vertex is u, its two ends would be one.
        let v = sets::other_than(u, vertices).unwrap_or(u);
        sets::all_among(vertices, &[u.0, v.0]) && self.has_edge(u, v)
    }

    // The same answer for two vertices or more: the quick path, which asks two of them without a search and sees that three different ones are never the ends of an edge.
    #[tactic(auto, using(crate::proofs::TwoEndsLaws::pair_of_both))]
    fn share_edge(self, vertices: &[u16]) -> bool
        requires { 1 < length vertices.now }
        ensures { result ≡ (has_edge vertices.now (seen self.entry.element) && has_edge vertices.now (seen self.entry.neighbour)) }
    {
        let (u, v) = (Vertex(vertices[0]), Vertex(vertices[1]));
        if vertices.len() == 2 {
            return self.has_edge(u, v);
        }
        !sets::are_apart(u, v, Vertex(vertices[2])) && self.share_any_edge(vertices)
    }

    // The vertices are all those of a face of both elements, whose cycle in one is its cycle in the other read backwards.
    fn share_face(self, vertices: &[u16]) -> bool
        ensures { result ≡ share_face vertices.now (seen self.entry.element) (seen self.entry.neighbour) }
    {
        (0..places::face_count(self.element.solid)).any(|i| is_shared(
            vertices,
            faces::face_of(self.element, i),
            self.neighbour,
        ))
    }
}

// The elements of two records fit.
pub fn pair_fits(a: &[u16], b: &[u16]) -> bool
    ensures { result ≡ fits (element_of a.now) (element_of b.now) }
{
    let pair = Pair {
        element: Element::of(a),
        neighbour: Element::of(b),
    };
    let mut common = Common::new();
    common.fill(pair.element, pair.neighbour);
    let vertices = common.as_slice();
    if vertices.len() <= 1 {
        return true;
    }
    pair.share_edge(vertices) || pair.share_face(vertices)
}
