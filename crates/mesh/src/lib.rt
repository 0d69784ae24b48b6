// Element tables, cut into tetrahedra.
#![tactic(auto)]

ghost use Rattle.mesh.specs.Cutting.{CutDone};

use blocks::cut_blocks;
use faults::Refusal;
use limits::{ELEMENT_LIMIT, TETRAHEDRON_LIMIT};
use storing::store_cut;

mod storing;

// What an accepted cut reports.
#[derive(Clone, Copy, Debug, PartialEq, Eq)]
pub struct CutCounts {
    pub tetrahedra: usize,
}

// Cuts a table into tetrahedra: judges it, then the output's room; a refusal writes nothing.
// The first three parameters are the table as C hands it on.
pub fn cut_mesh(
    vertex_count: usize,
    element_count: usize,
    elements: &[u16],
    tetrahedra: &mut [u16],
) -> Result<CutCounts, Refusal>
    ensures { CutDone vertex_count element_count elements.now tetrahedra.old result tetrahedra.new }
{
    // What `cut_blocks` leaves, in arrays as long as the limits allow: memory is fixed.
    let mut keys = [0u64; TETRAHEDRON_LIMIT];
    let mut sizes = [0u8; ELEMENT_LIMIT];
    let count = cut_blocks(vertex_count, element_count, elements, &mut keys, &mut sizes)?;
    store_cut(&keys[..count], tetrahedra)
}
