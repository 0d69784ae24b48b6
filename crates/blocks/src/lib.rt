// The cut of a judged table, before anything is stored: the keys of each element's tetrahedra, and how many each element has.
#![tactic(auto)]

ghost use Rattle.blocks.specs.Blocks.{BlocksDone};

use faults::Refusal;
use judging::judge_mesh;
use limits::{ELEMENT_LIMIT, TETRAHEDRON_LIMIT};

mod block;
mod fans;
mod filling;
mod lowest;
mod rows;

// Judges a table and cuts it: each element's keys, one block after the other, and each element's number of tetrahedra; the answer is how many
// tetrahedra there are, and a refusal writes nothing.
// The first three parameters are the table as C hands it on; the keys and sizes come apart, each in an array as long as the limits allow.
pub fn cut_blocks(
    vertex_count: usize,
    element_count: usize,
    elements: &[u16],
    keys: &mut [u64; TETRAHEDRON_LIMIT],
    sizes: &mut [u8; ELEMENT_LIMIT],
) -> Result<usize, Refusal>
    ensures { BlocksDone vertex_count element_count elements.now keys.old sizes.old result keys.new sizes.new }
{
    judge_mesh(vertex_count, element_count, elements)?;
    Ok(filling::fill_blocks(elements, element_count, keys, sizes))
}
