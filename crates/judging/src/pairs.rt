// The pairs of a table, judged: the first pair that does not fit.
ghost use Rattle.std.specs.Prelude.{◌≡◌};
ghost use Rattle.records.specs.Record.{first_elements};
ghost use Rattle.judging.specs.Judge.{pairs_judged};
ghost use Rattle.faults.specs.Refusals.{ruled};

use crate::misfits;
use crate::numbered::NumberedTable;
use faults::{Fault, Refusal};

// The pairs, by lowest j and then lowest i.
#[tactic(auto, using(crate::proofs::TableVerdictLaws::bad_pair, crate::proofs::TableVerdictLaws::all_fit))]
pub fn judge_pairs(table: NumberedTable) -> Result<(), Refusal>
    ensures { result ≡ ruled (pairs_judged table.entry.elements.now table.entry.count (first_elements table.entry.elements.now table.entry.count)) }
{
    match misfits::bad_pair(table) {
        None => Ok(()),
        // JOIN alone has a second number.
        Some((j, i)) => Err(Refusal {
            fault: Fault::Join,
            place: j + 1,
            second: i + 1,
        }),
    }
}
