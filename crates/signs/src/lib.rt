// The sign report: a table is cut and its vertex table judged, then its tetrahedra are counted by the sign of their volume.
#![tactic(auto)]

ghost use Rattle.signs.specs.Signs.{SignDone};

use blocks::cut_blocks;
use counting::count_signs;
use faults::Refusal;
use limits::{ELEMENT_LIMIT, TETRAHEDRON_LIMIT};
use vertices::judge_vertices;

mod counting;

// What an accepted sign report counts.
#[derive(Clone, Copy, Debug, Default, PartialEq, Eq)]
pub struct SignCounts {
    pub positive: usize,
    pub zero: usize,
    pub negative: usize,
    pub unsound: usize,
}

// Counts the signs of a cut: judges the table, then the vertex table, ROOM and RANGE.
// The first three parameters are the table as C hands it on.
pub fn sign_report(
    vertex_count: usize,
    element_count: usize,
    elements: &[u16],
    vertices: &[i32],
) -> Result<SignCounts, Refusal>
    ensures { SignDone vertex_count element_count elements.now vertices.now result }
{
    // What `cut_blocks` leaves, in arrays as long as the limits allow: memory is fixed.
    let mut keys = [0; TETRAHEDRON_LIMIT];
    let mut sizes = [0; ELEMENT_LIMIT];
    let count = cut_blocks(vertex_count, element_count, elements, &mut keys, &mut sizes)?;
    judge_vertices(vertices, vertex_count)?;
    Ok(count_signs(&keys[..count], &sizes[..element_count], vertices))
}
