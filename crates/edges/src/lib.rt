// Whether two vertices are the ends of an edge of an element.
#![tactic(auto)]

ghost use Rattle.std.specs.Prelude.{◌≡◌, [], ◌∷◌, T};
ghost use Rattle.laws.specs.Words.{some};
ghost use Rattle.solids.specs.Fit.{has_edge};
ghost use Rattle.records.specs.Elements.{seen};
ghost use Rattle.edges.specs.EdgePlaces.{names_edges, reaches};

use faces::vertex_at;
use records::Element;
use solids::{Place, Solid, Vertex};

// The edges of each solid, from both of their ends: a row for each place, which it names first, then three places to which an edge goes from it.
const TETRAHEDRON: [[u8; 4]; 4] = [[1, 2, 3, 4], [2, 1, 3, 4], [3, 1, 2, 4], [4, 1, 2, 3]];

// Four edges meet at the tip, so it has two rows.
const PYRAMID: [[u8; 4]; 6] = [
    [1, 2, 4, 5],
    [2, 1, 3, 5],
    [3, 2, 4, 5],
    [4, 1, 3, 5],
    [5, 1, 2, 3],
    [5, 1, 3, 4],
];

const PRISM: [[u8; 4]; 6] = [
    [1, 2, 3, 4],
    [2, 1, 3, 5],
    [3, 1, 2, 6],
    [4, 1, 5, 6],
    [5, 2, 4, 6],
    [6, 3, 4, 5],
];

const HEXAHEDRON: [[u8; 4]; 8] = [
    [1, 2, 4, 5],
    [2, 1, 3, 6],
    [3, 2, 4, 7],
    [4, 1, 3, 8],
    [5, 1, 6, 8],
    [6, 2, 5, 7],
    [7, 3, 6, 8],
    [8, 4, 5, 7],
];

// The rows of a solid; the faces are a table of another room, and the two no plainer as one.
#[tactic(auto, unfolding(crate::specs::EdgePlaces::names_edges))]
fn rows_of(solid: Solid) -> &'static [[u8; 4]]
    ensures { T (names_edges solid result.now) }
{
    match solid {
        Solid::Tetrahedron => &TETRAHEDRON,
        Solid::Pyramid => &PYRAMID,
        Solid::Prism => &PRISM,
        Solid::Hexahedron => &HEXAHEDRON,
    }
}

// The vertex u stands at the first place of a row, and v at one of the others.
#[tactic(auto, unfolding(crate::specs::EdgePlaces::reaches))]
fn reaches(row: [u8; 4], corners: &[u16], u: Vertex, v: Vertex) -> bool
    ensures { result ≡ reaches u.0 v.0 corners.now row }
{
    let [p, a, b, c] = row;
    // The ends are looked up only where the row is that of u: most are not.
    vertex_at(corners, Place(p)) == u
        && (vertex_at(corners, Place(a)) == v
            || vertex_at(corners, Place(b)) == v
            || vertex_at(corners, Place(c)) == v)
}

// An edge of one of the rows goes from u to v.
fn any_reaches(rows: &[[u8; 4]], corners: &[u16], u: Vertex, v: Vertex) -> bool
    ensures { result ≡ some (reaches u.0 v.0 corners.now) rows.now }
{
    rows.iter().any(|&row| reaches(row, corners, u, v))
}

// Two vertices are the ends of an edge of the element.
pub fn has_edge(u: Vertex, v: Vertex, element: Element) -> bool
    ensures { result ≡ has_edge (u.0 ∷ v.0 ∷ []) (seen element.entry) }
{
    any_reaches(rows_of(element.solid), element.corners, u, v)
}
