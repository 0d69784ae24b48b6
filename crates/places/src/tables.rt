// The tables of the solids: the faces, and the hexahedron's cuts.
ghost use Rattle.std.specs.Prelude.{◌≡◌};
ghost use Rattle.places.specs.PlaceLoops.{face_rows};

use solids::Solid;

// The faces of each solid, by their places; the fourth place of a triangle is 0.
const TETRAHEDRON: [[u8; 4]; 4] = [[2, 3, 4, 0], [1, 4, 3, 0], [1, 2, 4, 0], [1, 3, 2, 0]];

const PYRAMID: [[u8; 4]; 5] = [
    [1, 4, 3, 2],
    [1, 2, 5, 0],
    [2, 3, 5, 0],
    [3, 4, 5, 0],
    [4, 1, 5, 0],
];

const PRISM: [[u8; 4]; 5] = [
    [1, 3, 2, 0],
    [4, 5, 6, 0],
    [1, 2, 5, 4],
    [2, 3, 6, 5],
    [3, 1, 4, 6],
];

const HEXAHEDRON: [[u8; 4]; 6] = [
    [1, 4, 3, 2],
    [1, 2, 6, 5],
    [1, 5, 8, 4],
    [2, 3, 7, 6],
    [5, 6, 7, 8],
    [3, 4, 8, 7],
];

// The faces of a solid; the edges are a table of another room, and the two no plainer as one.
#[tactic(auto, unfolding(crate::specs::PlaceLoops::face_rows))]
pub fn faces_of(solid: Solid) -> &'static [[u8; 4]]
    ensures { result.now ≡ face_rows solid }
{
    match solid {
        Solid::Tetrahedron => &TETRAHEDRON,
        Solid::Pyramid => &PYRAMID,
        Solid::Prism => &PRISM,
        Solid::Hexahedron => &HEXAHEDRON,
    }
}

// The hexahedron's cuts, 64 rows of 24 places: six tetrahedra for each lowest corner and each choice of its far diagonals (1 where the diagonal
// passes the opposite corner), the sixth of a five-row being four zeros.
// One row after the other, since `cut_places` hands them out so.
pub static CUTS: [u8; 1536] = [
    // row 0: lowest corner 1, far diagonals 0 0 0
    1, 2, 3, 6, 1, 3, 4, 8, 1, 3, 8, 6, 1, 5, 6, 8, 3, 6, 7, 8, 0, 0, 0, 0,
    // row 1: lowest corner 1, far diagonals 1 0 0
    1, 2, 3, 7, 1, 2, 7, 6, 1, 3, 4, 8, 1, 3, 8, 7, 1, 5, 6, 8, 1, 6, 7, 8,
    // row 2: lowest corner 1, far diagonals 0 1 0
    1, 2, 3, 6, 1, 3, 4, 8, 1, 3, 7, 6, 1, 3, 8, 7, 1, 5, 6, 7, 1, 5, 7, 8,
    // row 3: lowest corner 1, far diagonals 1 1 0
    1, 2, 3, 7, 1, 2, 7, 6, 1, 3, 4, 8, 1, 3, 8, 7, 1, 5, 6, 7, 1, 5, 7, 8,
    // row 4: lowest corner 1, far diagonals 0 0 1
    1, 2, 3, 6, 1, 3, 4, 7, 1, 3, 7, 6, 1, 4, 8, 7, 1, 5, 6, 8, 1, 6, 7, 8,
    // row 5: lowest corner 1, far diagonals 1 0 1
    1, 2, 3, 7, 1, 2, 7, 6, 1, 3, 4, 7, 1, 4, 8, 7, 1, 5, 6, 8, 1, 6, 7, 8,
    // row 6: lowest corner 1, far diagonals 0 1 1
    1, 2, 3, 6, 1, 3, 4, 7, 1, 3, 7, 6, 1, 4, 8, 7, 1, 5, 6, 7, 1, 5, 7, 8,
    // row 7: lowest corner 1, far diagonals 1 1 1
    1, 2, 3, 7, 1, 2, 7, 6, 1, 3, 4, 7, 1, 4, 8, 7, 1, 5, 6, 7, 1, 5, 7, 8,
    // row 8: lowest corner 2, far diagonals 0 0 0
    1, 2, 4, 5, 2, 3, 4, 7, 2, 4, 5, 7, 2, 5, 6, 7, 4, 5, 7, 8, 0, 0, 0, 0,
    // row 9: lowest corner 2, far diagonals 1 0 0
    1, 2, 4, 8, 1, 2, 8, 5, 2, 3, 4, 7, 2, 4, 8, 7, 2, 5, 6, 7, 2, 5, 7, 8,
    // row 10: lowest corner 2, far diagonals 0 1 0
    1, 2, 4, 5, 2, 3, 4, 7, 2, 4, 5, 8, 2, 4, 8, 7, 2, 5, 6, 8, 2, 6, 7, 8,
    // row 11: lowest corner 2, far diagonals 1 1 0
    1, 2, 4, 8, 1, 2, 8, 5, 2, 3, 4, 7, 2, 4, 8, 7, 2, 5, 6, 8, 2, 6, 7, 8,
    // row 12: lowest corner 2, far diagonals 0 0 1
    1, 2, 4, 5, 2, 3, 4, 8, 2, 3, 8, 7, 2, 4, 5, 8, 2, 5, 6, 7, 2, 5, 7, 8,
    // row 13: lowest corner 2, far diagonals 1 0 1
    1, 2, 4, 8, 1, 2, 8, 5, 2, 3, 4, 8, 2, 3, 8, 7, 2, 5, 6, 7, 2, 5, 7, 8,
    // row 14: lowest corner 2, far diagonals 0 1 1
    1, 2, 4, 5, 2, 3, 4, 8, 2, 3, 8, 7, 2, 4, 5, 8, 2, 5, 6, 8, 2, 6, 7, 8,
    // row 15: lowest corner 2, far diagonals 1 1 1
    1, 2, 4, 8, 1, 2, 8, 5, 2, 3, 4, 8, 2, 3, 8, 7, 2, 5, 6, 8, 2, 6, 7, 8,
    // row 16: lowest corner 3, far diagonals 0 0 0
    1, 2, 3, 6, 1, 3, 4, 8, 1, 3, 8, 6, 1, 5, 6, 8, 3, 6, 7, 8, 0, 0, 0, 0,
    // row 17: lowest corner 3, far diagonals 1 0 0
    1, 2, 3, 5, 1, 3, 4, 8, 1, 3, 8, 5, 2, 3, 5, 6, 3, 5, 6, 8, 3, 6, 7, 8,
    // row 18: lowest corner 3, far diagonals 0 1 0
    1, 2, 3, 6, 1, 3, 4, 5, 1, 3, 5, 6, 3, 4, 5, 8, 3, 5, 6, 8, 3, 6, 7, 8,
    // row 19: lowest corner 3, far diagonals 1 1 0
    1, 2, 3, 5, 1, 3, 4, 5, 2, 3, 5, 6, 3, 4, 5, 8, 3, 5, 6, 8, 3, 6, 7, 8,
    // row 20: lowest corner 3, far diagonals 0 0 1
    1, 2, 3, 6, 1, 3, 4, 8, 1, 3, 5, 6, 1, 3, 8, 5, 3, 5, 6, 7, 3, 5, 7, 8,
    // row 21: lowest corner 3, far diagonals 1 0 1
    1, 2, 3, 5, 1, 3, 4, 8, 1, 3, 8, 5, 2, 3, 5, 6, 3, 5, 6, 7, 3, 5, 7, 8,
    // row 22: lowest corner 3, far diagonals 0 1 1
    1, 2, 3, 6, 1, 3, 4, 5, 1, 3, 5, 6, 3, 4, 5, 8, 3, 5, 6, 7, 3, 5, 7, 8,
    // row 23: lowest corner 3, far diagonals 1 1 1
    1, 2, 3, 5, 1, 3, 4, 5, 2, 3, 5, 6, 3, 4, 5, 8, 3, 5, 6, 7, 3, 5, 7, 8,
    // row 24: lowest corner 4, far diagonals 0 0 0
    1, 2, 4, 5, 2, 3, 4, 7, 2, 4, 5, 7, 2, 5, 6, 7, 4, 5, 7, 8, 0, 0, 0, 0,
    // row 25: lowest corner 4, far diagonals 1 0 0
    1, 2, 4, 6, 1, 4, 5, 6, 2, 3, 4, 7, 2, 4, 6, 7, 4, 5, 6, 7, 4, 5, 7, 8,
    // row 26: lowest corner 4, far diagonals 0 1 0
    1, 2, 4, 5, 2, 3, 4, 6, 2, 4, 5, 6, 3, 4, 6, 7, 4, 5, 6, 7, 4, 5, 7, 8,
    // row 27: lowest corner 4, far diagonals 1 1 0
    1, 2, 4, 6, 1, 4, 5, 6, 2, 3, 4, 6, 3, 4, 6, 7, 4, 5, 6, 7, 4, 5, 7, 8,
    // row 28: lowest corner 4, far diagonals 0 0 1
    1, 2, 4, 5, 2, 3, 4, 7, 2, 4, 5, 6, 2, 4, 6, 7, 4, 5, 6, 8, 4, 6, 7, 8,
    // row 29: lowest corner 4, far diagonals 1 0 1
    1, 2, 4, 6, 1, 4, 5, 6, 2, 3, 4, 7, 2, 4, 6, 7, 4, 5, 6, 8, 4, 6, 7, 8,
    // row 30: lowest corner 4, far diagonals 0 1 1
    1, 2, 4, 5, 2, 3, 4, 6, 2, 4, 5, 6, 3, 4, 6, 7, 4, 5, 6, 8, 4, 6, 7, 8,
    // row 31: lowest corner 4, far diagonals 1 1 1
    1, 2, 4, 6, 1, 4, 5, 6, 2, 3, 4, 6, 3, 4, 6, 7, 4, 5, 6, 8, 4, 6, 7, 8,
    // row 32: lowest corner 5, far diagonals 0 0 0
    1, 2, 4, 5, 2, 3, 4, 7, 2, 4, 5, 7, 2, 5, 6, 7, 4, 5, 7, 8, 0, 0, 0, 0,
    // row 33: lowest corner 5, far diagonals 1 0 0
    1, 2, 3, 5, 1, 3, 4, 5, 2, 3, 5, 7, 2, 5, 6, 7, 3, 4, 5, 7, 4, 5, 7, 8,
    // row 34: lowest corner 5, far diagonals 0 1 0
    1, 2, 4, 5, 2, 3, 4, 5, 2, 3, 5, 6, 3, 4, 5, 7, 3, 5, 6, 7, 4, 5, 7, 8,
    // row 35: lowest corner 5, far diagonals 1 1 0
    1, 2, 3, 5, 1, 3, 4, 5, 2, 3, 5, 6, 3, 4, 5, 7, 3, 5, 6, 7, 4, 5, 7, 8,
    // row 36: lowest corner 5, far diagonals 0 0 1
    1, 2, 4, 5, 2, 3, 4, 5, 2, 3, 5, 7, 2, 5, 6, 7, 3, 4, 5, 8, 3, 5, 7, 8,
    // row 37: lowest corner 5, far diagonals 1 0 1
    1, 2, 3, 5, 1, 3, 4, 5, 2, 3, 5, 7, 2, 5, 6, 7, 3, 4, 5, 8, 3, 5, 7, 8,
    // row 38: lowest corner 5, far diagonals 0 1 1
    1, 2, 4, 5, 2, 3, 4, 5, 2, 3, 5, 6, 3, 4, 5, 8, 3, 5, 6, 7, 3, 5, 7, 8,
    // row 39: lowest corner 5, far diagonals 1 1 1
    1, 2, 3, 5, 1, 3, 4, 5, 2, 3, 5, 6, 3, 4, 5, 8, 3, 5, 6, 7, 3, 5, 7, 8,
    // row 40: lowest corner 6, far diagonals 0 0 0
    1, 2, 3, 6, 1, 3, 4, 8, 1, 3, 8, 6, 1, 5, 6, 8, 3, 6, 7, 8, 0, 0, 0, 0,
    // row 41: lowest corner 6, far diagonals 1 0 0
    1, 2, 4, 6, 1, 4, 8, 6, 1, 5, 6, 8, 2, 3, 4, 6, 3, 4, 6, 8, 3, 6, 7, 8,
    // row 42: lowest corner 6, far diagonals 0 1 0
    1, 2, 3, 6, 1, 3, 4, 6, 1, 4, 5, 6, 3, 4, 6, 8, 3, 6, 7, 8, 4, 5, 6, 8,
    // row 43: lowest corner 6, far diagonals 1 1 0
    1, 2, 4, 6, 1, 4, 5, 6, 2, 3, 4, 6, 3, 4, 6, 8, 3, 6, 7, 8, 4, 5, 6, 8,
    // row 44: lowest corner 6, far diagonals 0 0 1
    1, 2, 3, 6, 1, 3, 4, 6, 1, 4, 8, 6, 1, 5, 6, 8, 3, 4, 6, 7, 4, 6, 7, 8,
    // row 45: lowest corner 6, far diagonals 1 0 1
    1, 2, 4, 6, 1, 4, 8, 6, 1, 5, 6, 8, 2, 3, 4, 6, 3, 4, 6, 7, 4, 6, 7, 8,
    // row 46: lowest corner 6, far diagonals 0 1 1
    1, 2, 3, 6, 1, 3, 4, 6, 1, 4, 5, 6, 3, 4, 6, 7, 4, 5, 6, 8, 4, 6, 7, 8,
    // row 47: lowest corner 6, far diagonals 1 1 1
    1, 2, 4, 6, 1, 4, 5, 6, 2, 3, 4, 6, 3, 4, 6, 7, 4, 5, 6, 8, 4, 6, 7, 8,
    // row 48: lowest corner 7, far diagonals 0 0 0
    1, 2, 4, 5, 2, 3, 4, 7, 2, 4, 5, 7, 2, 5, 6, 7, 4, 5, 7, 8, 0, 0, 0, 0,
    // row 49: lowest corner 7, far diagonals 1 0 0
    1, 2, 3, 7, 1, 2, 7, 5, 1, 3, 4, 7, 1, 4, 5, 7, 2, 5, 6, 7, 4, 5, 7, 8,
    // row 50: lowest corner 7, far diagonals 0 1 0
    1, 2, 4, 7, 1, 2, 7, 6, 1, 4, 5, 7, 1, 5, 6, 7, 2, 3, 4, 7, 4, 5, 7, 8,
    // row 51: lowest corner 7, far diagonals 1 1 0
    1, 2, 3, 7, 1, 2, 7, 6, 1, 3, 4, 7, 1, 4, 5, 7, 1, 5, 6, 7, 4, 5, 7, 8,
    // row 52: lowest corner 7, far diagonals 0 0 1
    1, 2, 4, 7, 1, 2, 7, 5, 1, 4, 8, 7, 1, 5, 7, 8, 2, 3, 4, 7, 2, 5, 6, 7,
    // row 53: lowest corner 7, far diagonals 1 0 1
    1, 2, 3, 7, 1, 2, 7, 5, 1, 3, 4, 7, 1, 4, 8, 7, 1, 5, 7, 8, 2, 5, 6, 7,
    // row 54: lowest corner 7, far diagonals 0 1 1
    1, 2, 4, 7, 1, 2, 7, 6, 1, 4, 8, 7, 1, 5, 6, 7, 1, 5, 7, 8, 2, 3, 4, 7,
    // row 55: lowest corner 7, far diagonals 1 1 1
    1, 2, 3, 7, 1, 2, 7, 6, 1, 3, 4, 7, 1, 4, 8, 7, 1, 5, 6, 7, 1, 5, 7, 8,
    // row 56: lowest corner 8, far diagonals 0 0 0
    1, 2, 3, 6, 1, 3, 4, 8, 1, 3, 8, 6, 1, 5, 6, 8, 3, 6, 7, 8, 0, 0, 0, 0,
    // row 57: lowest corner 8, far diagonals 1 0 0
    1, 2, 4, 8, 1, 2, 8, 6, 1, 5, 6, 8, 2, 3, 4, 8, 2, 3, 8, 6, 3, 6, 7, 8,
    // row 58: lowest corner 8, far diagonals 0 1 0
    1, 2, 3, 8, 1, 2, 8, 5, 1, 3, 4, 8, 2, 3, 8, 6, 2, 5, 6, 8, 3, 6, 7, 8,
    // row 59: lowest corner 8, far diagonals 1 1 0
    1, 2, 4, 8, 1, 2, 8, 5, 2, 3, 4, 8, 2, 3, 8, 6, 2, 5, 6, 8, 3, 6, 7, 8,
    // row 60: lowest corner 8, far diagonals 0 0 1
    1, 2, 3, 8, 1, 2, 8, 6, 1, 3, 4, 8, 1, 5, 6, 8, 2, 3, 8, 7, 2, 6, 7, 8,
    // row 61: lowest corner 8, far diagonals 1 0 1
    1, 2, 4, 8, 1, 2, 8, 6, 1, 5, 6, 8, 2, 3, 4, 8, 2, 3, 8, 7, 2, 6, 7, 8,
    // row 62: lowest corner 8, far diagonals 0 1 1
    1, 2, 3, 8, 1, 2, 8, 5, 1, 3, 4, 8, 2, 3, 8, 7, 2, 5, 6, 8, 2, 6, 7, 8,
    // row 63: lowest corner 8, far diagonals 1 1 1
    1, 2, 4, 8, 1, 2, 8, 5, 2, 3, 4, 8, 2, 3, 8, 7, 2, 5, 6, 8, 2, 6, 7, 8,
];
