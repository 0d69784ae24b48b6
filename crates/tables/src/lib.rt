// The records of a table, judged one by one: the counts, the table's length, then the first record with a fault.
#![tactic(auto)]

ghost use Rattle.std.specs.Prelude.{◌≡◌};
ghost use Rattle.faults.specs.Refusals.{ruled};
ghost use Rattle.tables.specs.JudgedRecords.{records_judged};

use faults::{Fault, Refusal};
use limits::{ELEMENT_LIMIT, VERTEX_LIMIT};
use records::{judge_record, record_at, record_count};

// Judges the records of a table: MANY for the counts, ROOM for its length, then each record in order.
// Its three parameters are those that C hands on.
#[tactic(auto, using(crate::proofs::JudgedRecordLaws::judging))]
pub fn judge_records(
    vertex_count: usize,
    element_count: usize,
    elements: &[u16],
) -> Result<(), Refusal>
    ensures { result ≡ ruled (records_judged vertex_count element_count elements.now) }
{
    if VERTEX_LIMIT < vertex_count || ELEMENT_LIMIT < element_count {
        return Err(Refusal::at(Fault::Many, 0));
    }
    if record_count(elements) < element_count {
        return Err(Refusal::at(Fault::Room, 0));
    }
    for k in 0..element_count {
        let judged = judge_record(record_at(elements, k), vertex_count);
        judged.map_err(|fault| Refusal::at(fault, k + 1))?;
    }
    Ok(())
}
