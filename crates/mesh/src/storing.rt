// The tetrahedra of keys, stored one after the other where there is room.
ghost use Rattle.std.specs.Prelude.{◌≡◌, [], ◌∷◌, map, ◌+◌, ◌*◌, ◌≤◌, length};
ghost use Rattle.limits.specs.Limits.{tetrahedron_width};
ghost use Rattle.laws.specs.Lent.{laid, placed};
ghost use Rattle.tets.specs.Tets.{tet_of, keyed};
ghost use Rattle.mesh.specs.Cutting.{flat};
ghost use Rattle.mesh.specs.StoreLoops.{CutStored};

use crate::CutCounts;
use faults::{Fault, Refusal};
use limits::TETRAHEDRON_WIDTH;
use tets::Tet;

// A tetrahedron's four numbers, from an index on.
fn put_tet(out: &mut [u16], at: usize, t: Tet)
    requires { at + tetrahedron_width ≤ length out.old }
    ensures { out.new ≡ placed out.old at (flat (tet_of t ∷ [])) }
{
    // Not by `copy_from_slice` of an array of the four, which was slower: 19 against 5 microseconds for 3,072 of them.
    let Tet(a, b, c, d) = t;
    out[at] = a.0;
    out[at + 1] = b.0;
    out[at + 2] = c.0;
    out[at + 3] = d.0;
}

// The tetrahedra of the keys, from the front on.
fn put_tets(out: &mut [u16], keys: &[u64])
    requires { tetrahedron_width * length keys.now ≤ length out.old }
    ensures { out.new ≡ laid (flat (map keyed keys.now)) out.old }
{
    // Not by `chunks_exact_mut`: of a slice that it lent a proof knows the length alone.
    for (k, &key) in keys.iter().enumerate() {
        put_tet(out, TETRAHEDRON_WIDTH * k, Tet::from(key));
    }
}

// The tetrahedra of the keys, stored where there is room for them, else ROOM.
pub fn store_cut(keys: &[u64], out: &mut [u16]) -> Result<CutCounts, Refusal>
    ensures { CutStored (map keyed keys.now) out.old result out.new }
{
    if out.len() / TETRAHEDRON_WIDTH < keys.len() {
        return Err(Refusal::at(Fault::Room, 0));
    }
    put_tets(out, keys);
    Ok(CutCounts {
        tetrahedra: keys.len(),
    })
}
