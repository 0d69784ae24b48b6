// Whether the elements of a table fit together: the search for the first pair that does not fit. The verdict of a pair is that of the room fit.
ghost use Rattle.std.specs.Prelude.{◌≡◌, MatchOption};
ghost use Rattle.judging.specs.Judge.{pair_fits, misfit, bad_element};
ghost use Rattle.judging.specs.FirstPair.{from_one, BadPair};

use crate::chains::Chains;
use crate::numbered::NumberedTable;

// Elements i and j fit.
#[tactic(auto, using(crate::proofs::ChainLaws::pair_verdict))]
pub fn pair_fits(table: &[u16], i: usize, j: usize) -> bool
    ensures { result ≡ pair_fits table.now i j }
{
    fit::pair_fits(records::record_at(table, i), records::record_at(table, j))
}

// The lowest i below j that does not fit j.
fn misfit_of(table: &[u16], j: usize) -> Option<usize>
    ensures { from_one result ≡ misfit table.now j }
{
    (0..j).find(|&i| !pair_fits(table, i, j))
}

// The lowest element that has a misfit.
fn bad_element(table: NumberedTable) -> Option<usize>
    ensures { from_one result ≡ bad_element table.entry.elements.now table.entry.count }
{
    let mut chains = Chains::new(table);
    for j in 0..table.count {
        if !chains.fits_next() {
            return Some(j);
        }
        chains.file_next();
    }
    None
}

// The first pair that does not fit, by its lowest j and then its lowest i: j and i.
pub fn bad_pair(table: NumberedTable) -> Option<(usize, usize)>
    ensures { MatchOption result (bad_element table.entry.elements.now table.entry.count ≡ 0) (λ p. BadPair table.entry.elements.now table.entry.count p.0 p.1) }
{
    let j = bad_element(table)?;
    let i = misfit_of(table.elements, j)?;
    Some((j, i))
}
