// Element tables, judged: the counts and lengths, each record, each pair.
#![tactic(auto)]

ghost use Rattle.judging.specs.Judge.{JudgeDone};

use faults::Refusal;
use numbered::NumberedTable;

mod chains;
mod misfits;
mod numbered;
mod pairs;

// Judges a table: MANY, ROOM, each record in order, each pair by lowest j and then lowest i.
pub fn judge_mesh(
    vertex_count: usize,
    element_count: usize,
    elements: &[u16],
) -> Result<(), Refusal>
    ensures { JudgeDone vertex_count element_count elements.now result }
{
    tables::judge_records(vertex_count, element_count, elements)?;
    pairs::judge_pairs(NumberedTable {
        elements,
        count: element_count,
    })
}
