// Lists of vertex numbers as sets.
ghost use Rattle.std.specs.Prelude.{◌≡◌, not, ◌&&◌, eqb};
ghost use Rattle.std.specs.List.{find};
ghost use Rattle.std.specs.Option.{option_map};
ghost use Rattle.laws.specs.Words.{among, every};
ghost use Rattle.solids.specs.Solids.{of_face};
ghost use Rattle.solids.specs.Fit.{same_set};
ghost use Rattle.faces.specs.Faces.{face_of};

use faces::Face;
use records::is_among;
use solids::Vertex;

// Each number of the list is among the others.
pub fn all_among(list: &[u16], others: &[u16]) -> bool
    ensures { result ≡ every (λ v. among v others.now) list.now }
{
    list.iter().all(|&v| is_among(Vertex(v), others))
}

// The same numbers, in whatever order.
pub fn same_set(list: &[u16], others: &[u16]) -> bool
    ensures { result ≡ same_set list.now others.now }
{
    all_among(list, others) && all_among(others, list)
}

// Three vertices are three different ones.
pub fn are_apart(u: Vertex, v: Vertex, w: Vertex) -> bool
    ensures { result ≡ (not (eqb u.0 v.0) && (not (eqb u.0 w.0) && not (eqb v.0 w.0))) }
{
    u != v && u != w && v != w
}

// The first of the vertices that is another than u.
pub fn other_than(u: Vertex, vertices: &[u16]) -> Option<Vertex>
    ensures { option_map (λ v. v.0) result ≡ find (λ v. not (eqb u.0 v)) vertices.now }
{
    vertices.iter().find(|&&v| u.0 != v).map(|&v| Vertex(v))
}

// The vertices are all those of the face.
pub fn has_corners(vertices: &[u16], face: Face) -> bool
    ensures { result ≡ same_set vertices.now (of_face (face_of face)) }
{
    match face {
        Face::Three(p, q, r) => same_set(vertices, &[p.0, q.0, r.0]),
        Face::Four(p, q, r, s) => same_set(vertices, &[p.0, q.0, r.0, s.0]),
    }
}
