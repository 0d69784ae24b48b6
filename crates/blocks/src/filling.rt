// The blocks of a table whose records are whole: filled, and put one after the other.
ghost use Rattle.std.specs.Prelude.{◌≡◌, ◌+◌, ◌≤◌, length};
ghost use Rattle.limits.specs.Limits.{element_limit, tetrahedron_limit};
ghost use Rattle.solids.specs.Cut.{cut};
ghost use Rattle.records.specs.Record.{element_of, first_elements};
ghost use Rattle.records.specs.WholeRecords.{Whole, WholeTable};
ghost use Rattle.blocks.specs.BlockLoops.{Stored, Filled};

use crate::block::Block;
use crate::fans::fan_block;
use crate::rows::row_block;
use records::Element;
use solids::Solid;

// The tetrahedra of a record's element: the hexahedron's by its row of the table of cuts, the others' by the rule.
#[tactic(auto, using(crate::proofs::RecordCutLaws::hexahedron_proper, crate::proofs::RecordCutLaws::by_row, crate::proofs::RecordCutLaws::by_fan))]
fn block_of(numbers: &[u16]) -> Block
    requires { Whole numbers.now }
    ensures { result ≡ cut (element_of numbers.now) }
{
    let element = Element::of(numbers);
    match element.solid {
        Solid::Hexahedron => row_block(element.corners),
        _ => fan_block(element),
    }
}

// The keys of a record's element, from an index on; how many they are.
fn put_block(numbers: &[u16], keys: &mut [u64], at: usize) -> usize
    requires whole { Whole numbers.now }
    requires at_in_bounds { at + 6 ≤ length keys.old }
    ensures stored { Stored (cut (element_of numbers.now)) at keys.old result keys.new }
    ensures few { result ≤ 6 }
{
    let block = block_of(numbers);
    let tets = block.as_slice();
    keys[at..at + tets.len()].copy_from_slice(tets);
    tets.len()
}

// The keys and the sizes of the first n elements; how many tetrahedra they make.
pub fn fill_blocks(table: &[u16], n: usize, keys: &mut [u64], sizes: &mut [u8]) -> usize
    requires whole_table { WholeTable table.now n }
    requires tetrahedron_limit_in_bounds { tetrahedron_limit ≤ length keys.old }
    requires element_limit_in_bounds { element_limit ≤ length sizes.old }
    ensures { Filled (first_elements table.now n) keys.old sizes.old result keys.new sizes.new }
{
    let mut count = 0;
    for k in 0..n {
        let size = put_block(records::record_at(table, k), keys, count);
        sizes[k] = size as u8;
        count += size;
    }
    count
}
