// The block of an element: its tetrahedra as keys, at most six, in ascending order.
ghost use Rattle.std.specs.Prelude.{◌≡◌, ℕ, ◌≤◌, ◌<◌, List, [], map, length, take};
ghost use Rattle.solids.specs.Solids.{Tet as Tetrahedron};
ghost use Rattle.solids.specs.Cut.{written, insert};
ghost use Rattle.tets.specs.Tets.{tet_of, key_of, keyed};
ghost use Rattle.blocks.specs.BlockLoops.{AscendingFrom};

use std::marker::Model;
use tets::{Tet, written_form};

// The keys of at most six tetrahedra, in ascending order; no array list of another crate, since the library stands on std alone.
#[derive(Drop)]
pub struct Block {
    keys: [u64; 6],
    len: usize,
}

// Clauses see the tetrahedra.
impl Model for Block {
    ghost Value = { List (Tetrahedron ℕ) };

    ghost view = { λ b. map keyed (take b.len b.keys) };

    ghost invariant = { λ b. (b.len ≤ 6) × AscendingFrom 0 (take b.len b.keys) };
}

impl Block {
    // A block of none.
    pub fn new() -> Block
        ensures { result ≡ [] }
    {
        Block {
            keys: [0; 6],
            len: 0,
        }
    }

    // One tetrahedron more, in its written form and at its place: at each place the lower key stays and the greater goes on.
    pub fn add(&mut self, tet: Tet)
        requires { length self.old < 6 }
        ensures { self.new ≡ insert (written (tet_of tet)) self.old }
    {
        // Not by `position` and `copy_within`, which was slower: 218 against 132 nanoseconds for a shuffled hexahedron.
        let mut key = u64::from(written_form(tet));
        for other in self.keys[..self.len].iter_mut() {
            let lower = key.min(*other);
            key = key.max(*other);
            *other = lower;
        }
        self.keys[self.len] = key;
        self.len += 1;
    }

    // The keys of the tetrahedra.
    #[tactic(auto, using(crate::proofs::InsertLaws::keys_again))]
    pub fn as_slice(&self) -> &[u64]
        ensures { result.now ≡ map key_of self.now }
    {
        &self.keys[..self.len]
    }
}
