// The signs of a cut's tetrahedra, counted block by block.
ghost use Rattle.std.specs.Prelude.{◌≡◌, [], ◌∷◌, map, T, pos};
ghost use Rattle.std.specs.Ordering.{int_cmp};
ghost use Rattle.tets.specs.Tets.{tet_of, keyed};
ghost use Rattle.signs.specs.Signs.{volume_in};
ghost use Rattle.signs.specs.SignLoops.{ranged_tet, RangedBlock, RangedBlocks, parted, block_counts, with_sign, Few, Tallied, all_positive, of_counts, FewSums, Summed};

use crate::SignCounts;
use std::cmp::Ordering;
use tets::Tet;
use vertices::point_at;
use volume::sixfold_volume;

impl SignCounts {
    // One tetrahedron more, by the sign of its volume.
    fn count(&mut self, volume: i64)
        requires { Few self.old }
        ensures { self.new ≡ with_sign (int_cmp volume (pos 0)) self.old }
    {
        match volume.cmp(&0) {
            Ordering::Greater => self.positive += 1,
            Ordering::Equal => self.zero += 1,
            Ordering::Less => self.negative += 1,
        }
    }

    // Each count of the other, too; no `AddAssign`, since an operator of a public type would ask every caller for room.
    fn add(&mut self, other: SignCounts)
        requires { FewSums self.old other }
        ensures { Summed self.old other self.new }
    {
        self.positive += other.positive;
        self.zero += other.zero;
        self.negative += other.negative;
        self.unsound += other.unsound;
    }
}

// The sixfold volume of a tetrahedron; no point of it is refused.
fn volume_at(t: Tet, vertices: &[i32]) -> i64
    requires { T (ranged_tet vertices.now (tet_of t)) }
    ensures { result ≡ volume_in vertices.now (tet_of t) }
{
    let a = point_at(vertices, usize::from(t.0.0));
    let b = point_at(vertices, usize::from(t.1.0));
    let c = point_at(vertices, usize::from(t.2.0));
    let d = point_at(vertices, usize::from(t.3.0));
    sixfold_volume(a, b, c, d).unwrap()
}

// The tetrahedra of a block, counted by sign.
fn tally_block(block: &[u64], vertices: &[i32]) -> SignCounts
    requires { RangedBlock vertices.now block.now }
    ensures { Tallied vertices.now (map keyed block.now) result }
{
    let mut tally = SignCounts::default();
    for &key in block {
        tally.count(volume_at(Tet::from(key), vertices));
    }
    tally
}

// An element whose tetrahedra are counted so is sound: all of them are positive, none is zero or negative.
fn is_sound(tally: SignCounts) -> bool
    ensures { result ≡ all_positive tally }
{
    tally.zero == 0 && tally.negative == 0
}

// The four counts of one element, by its block.
fn element_counts(block: &[u64], vertices: &[i32]) -> SignCounts
    requires { RangedBlock vertices.now block.now }
    ensures { of_counts result ≡ block_counts vertices.now (map keyed block.now ∷ []) }
{
    let tally = tally_block(block, vertices);
    SignCounts {
        unsound: usize::from(!is_sound(tally)),
        ..tally
    }
}

// Positive, zero and negative tetrahedra of the blocks, and unsound elements: the keys stand block after block, as many as the sizes say.
pub fn count_signs(keys: &[u64], sizes: &[u8], vertices: &[i32]) -> SignCounts
    requires { RangedBlocks vertices.now keys.now sizes.now }
    ensures { of_counts result ≡ block_counts vertices.now (parted (map keyed keys.now) sizes.now) }
{
    let mut counts = SignCounts::default();
    let mut rest = keys;
    for &size in sizes {
        let (block, behind) = rest.split_at(usize::from(size));
        let more = element_counts(block, vertices);
        counts.add(more);
        rest = behind;
    }
    counts
}
