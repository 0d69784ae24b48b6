// The element record: its fields, and how it is judged. The definitions stand in specs/, what is proved of them in proofs/Theorems.antt.
#![tactic(auto)]

ghost use Rattle.std.specs.Prelude.{◌≡◌, take, drop};
ghost use Rattle.laws.specs.Words.{some, among, distinct};
ghost use Rattle.records.specs.Record.{kind_of, numbers_of, used_of, spare_of, is_kind, solid_of, corner_at, stray_vertex, not_zero, record_finding, record_count, record_at, as_record};
ghost use Rattle.solids.specs.Solids.{tet};

use faults::Fault;
use limits::{CORNER_WIDTH, ELEMENT_WIDTH};
use solids::{Place, Solid, Vertex};

mod element;

pub use element::Element;

// The solid of a kind; any other number is refused before its solid is asked for.
// No `TryFrom`: the page defines `solid_of` for every number, so that it cannot fail.
#[tactic(auto, unfolding(crate::specs::Record::solid_of))]
pub fn solid_of(kind: u16) -> Solid
    ensures { result ≡ solid_of kind }
{
    match kind {
        4 => Solid::Tetrahedron,
        5 => Solid::Pyramid,
        6 => Solid::Prism,
        _ => Solid::Hexahedron,
    }
}

// The kind, which is the corner count; as it is defined, 0 of an empty record.
#[tactic(auto, unfolding(crate::specs::Record::kind_of))]
pub fn kind_of(element: &[u16]) -> u16
    ensures { result ≡ kind_of element.now }
{
    element.first().copied().unwrap_or(0)
}

// The vertex number at a place; as it is defined, 0 at a place that the record does not have.
#[tactic(auto, using(crate::proofs::RecordLaws::corner_cases))]
pub fn corner(element: &[u16], place: Place) -> Vertex
    ensures { result.0 ≡ corner_at element.now place.0 }
{
    match usize::from(place.0) {
        at @ 1..=CORNER_WIDTH => Vertex(element.get(at).copied().unwrap_or(0)),
        _ => Vertex(0),
    }
}

// The first n numbers, or all where they are fewer.
fn front(numbers: &[u16], n: usize) -> &[u16]
    ensures { result.now ≡ take n numbers.now }
{
    &numbers[..n.min(numbers.len())]
}

// The numbers behind the first n; empty where they are fewer.
fn behind(numbers: &[u16], n: usize) -> &[u16]
    ensures { result.now ≡ drop n numbers.now }
{
    &numbers[n.min(numbers.len())..]
}

// The eight vertex numbers of a record.
#[tactic(auto, unfolding(crate::specs::Record::numbers_of))]
fn numbers_of(element: &[u16]) -> &[u16]
    ensures { result.now ≡ numbers_of element.now }
{
    front(behind(element, 1), CORNER_WIDTH)
}

// The vertex numbers of a record's corners, and the unused ones.
#[tactic(auto, unfolding(crate::specs::Record::used_of, crate::specs::Record::spare_of))]
fn parts_of(element: &[u16]) -> (&[u16], &[u16])
    ensures used { result.0.now ≡ used_of element.now }
    ensures spare { result.1.now ≡ spare_of element.now }
{
    let numbers = numbers_of(element);
    numbers.split_at(usize::from(kind_of(element)).min(numbers.len()))
}

// The vertex numbers of a record's corners.
pub fn corners_of(element: &[u16]) -> &[u16]
    ensures { result.now ≡ used_of element.now }
{
    parts_of(element).0
}

// How many whole records a table holds.
#[tactic(auto, unfolding(crate::specs::Record::record_count))]
pub fn record_count(table: &[u16]) -> usize
    ensures { result ≡ record_count table.now }
{
    table.len() / ELEMENT_WIDTH
}

// The record k of a table, from 0; where the table ends before it does, what there is of it.
#[tactic(auto, using(crate::proofs::RecordLaws::record_from))]
pub fn record_at(table: &[u16], k: usize) -> &[u16]
    ensures { result.now ≡ record_at table.now k }
{
    front(
        behind(table, k.saturating_mul(ELEMENT_WIDTH)),
        ELEMENT_WIDTH,
    )
}

// The record of a tetrahedron with these corners; its kind is the page's number, as in each record.
pub fn tetrahedron_record(a: Vertex, b: Vertex, c: Vertex, d: Vertex) -> [u16; ELEMENT_WIDTH]
    ensures { result ≡ as_record (tet a.0 b.0 c.0 d.0) }
{
    [4, a.0, b.0, c.0, d.0, 0, 0, 0, 0]
}

// A kind is 4, 5, 6 or 8; no enum, since a kind is the page's number in a record that is only lent.
#[tactic(auto, unfolding(crate::specs::Record::is_kind))]
fn is_kind(kind: u16) -> bool
    ensures { result ≡ is_kind kind }
{
    matches!(kind, 4 | 5 | 6 | 8)
}

// One of the vertex numbers is 0 or above the limit.
fn has_stray(used: &[u16], limit: usize) -> bool
    ensures { result ≡ some (stray_vertex limit) used.now }
{
    used.iter().any(|&v| v == 0 || limit < usize::from(v))
}

// One of the unused vertex numbers is not zero.
fn has_nonzero(spare: &[u16]) -> bool
    ensures { result ≡ some not_zero spare.now }
{
    spare.iter().any(|&v| v != 0)
}

// The vertex is among eight: each number is compared, without a branch.
fn is_of_eight(v: Vertex, eight: [u16; 8]) -> bool
    ensures { result ≡ among v.0 eight }
{
    let [a, b, c, d, e, f, g, h] = eight;
    let v = v.0;
    (v == a)
        | ((v == b) | ((v == c) | ((v == d) | ((v == e) | ((v == f) | ((v == g) | (v == h)))))))
}

// The vertex is among four, in the same way.
fn is_of_four(v: Vertex, four: [u16; 4]) -> bool
    ensures { result ≡ among v.0 four }
{
    let [a, b, c, d] = four;
    let v = v.0;
    (v == a) | ((v == b) | ((v == c) | (v == d)))
}

// The vertex is one of the list.
fn is_one_of(v: Vertex, list: &[u16]) -> bool
    ensures { result ≡ among v.0 list.now }
{
    for &other in list {
        if v.0 == other {
            return true;
        }
    }
    false
}

// The vertex is among those of the list. The corners of a hexahedron and of a tetrahedron are compared without a loop, since this is the innermost test of judging.
pub fn is_among(v: Vertex, list: &[u16]) -> bool
    ensures { result ≡ among v.0 list.now }
{
    match list {
        [a, b, c, d, e, f, g, h] => is_of_eight(v, [*a, *b, *c, *d, *e, *f, *g, *h]),
        [a, b, c, d] => is_of_four(v, [*a, *b, *c, *d]),
        _ => is_one_of(v, list),
    }
}

// No number stands twice.
fn is_distinct(numbers: &[u16]) -> bool
    ensures { result ≡ distinct numbers.now }
{
    (0..numbers.len()).all(|i| !is_among(Vertex(numbers[i]), &numbers[i + 1..]))
}

// The first fault of a record whose vertex numbers may go up to a limit: KIND, VERTEX, SPARE, REPEAT, in this order.
#[tactic(auto, unfolding(crate::specs::Record::record_finding))]
pub fn judge_record(element: &[u16], limit: usize) -> Result<(), Fault>
    ensures { result ≡ record_finding limit element.now }
{
    if element.len() != ELEMENT_WIDTH || !is_kind(kind_of(element)) {
        return Err(Fault::Kind);
    }
    let (used, spare) = parts_of(element);
    if has_stray(used, limit) {
        return Err(Fault::Vertex);
    }
    if has_nonzero(spare) {
        return Err(Fault::Spare);
    }
    if !is_distinct(used) {
        return Err(Fault::Repeat);
    }
    Ok(())
}
