// The fields of a line: their number and spacing, what each says, and what is wrong with the first that is.
ghost use Rattle.std.specs.Fn.{FnReturnsAt};
ghost use Rattle.std.specs.Prelude.{◌≡◌, List, ℕ};
ghost use Rattle.limits.specs.Limits.{space};
ghost use Rattle.laws.specs.Pieces.{split};
ghost use Rattle.format.specs.Number.{coordinate_of, number_of, value_of};
ghost use Rattle.format.specs.Line.{are_fields, bad_shape, first_of, judge_coordinate, judge_count, judge_vertex, field_verdict, fields_verdict};
ghost use Rattle.text.specs.ReadingLoops.{FirstField, Says};

use faults::Fault;
use format::{ReaderState, Role};
use limits::{FIELDS_AT, MARK_WIDTH, SPACE};
use numbers::scan::split_once;
use numbers::{coordinate, number, value};

// Whether s is n fields with one space between two. The library's `split` was tried here: the proof would carry what its closure answers, and did not close.
fn are_fields(s: &[u8], n: usize) -> bool
    ensures { result ≡ are_fields n (split space s.now) }
{
    if n == 0 {
        return false;
    }
    let mut rest = s;
    for _ in 1..n {
        let Some((field, more)) = split_once(rest, SPACE) else {
            return false;
        };
        if field.is_empty() {
            return false;
        }
        rest = more;
    }
    !rest.is_empty() && split_once(rest, SPACE).is_none()
}

// Whether a line has another number of fields than n, or wrong spacing.
#[tactic(auto, unfolding(format::specs::Line::bad_shape, format::specs::Line::fields_of))]
pub fn bad_shape(t: &[u8], n: usize) -> bool
    ensures { result ≡ bad_shape n t.now }
{
    t.get(MARK_WIDTH) != Some(&SPACE) || !are_fields(&t[FIELDS_AT..], n)
}

// The first field of s and what stands behind it, which may be nothing.
pub fn first_field(s: &[u8]) -> (&[u8], &[u8])
    ensures { FirstField s.now result.0.now result.1.now }
{
    split_once(s, SPACE).unwrap_or((s, &[]))
}

// The first N fields, each by what `value` says of it; where there is none, what it says of no bytes. No `split`, as at `are_fields`.
pub fn first_of<T: Copy, F: Fn(&[u8]) -> T, const N: usize>(s: &[u8], value: F) -> [T; N]
    requires { F.IsAlwaysCallable value }
    ensures { (f : List ℕ → T) → Says (FnReturnsAt F.Fn value) f → result ≡ first_of f N (split space s.now) }
{
    let mut out = [value(&[]); N];
    let mut rest = s;
    for place in out.iter_mut() {
        let (field, more) = first_field(rest);
        *place = value(field);
        rest = more;
    }
    out
}

// The numbers of the first N fields, 0 where there is none, as the page's definition has it.
pub fn numbers<const N: usize>(s: &[u8]) -> [u16; N]
    ensures { result ≡ first_of value_of N (split space s.now) }
{
    first_of(s, value)
}

// What is wrong with a coordinate.
fn judge_coordinate(t: &[u8]) -> Result<(), Fault>
    ensures { result ≡ judge_coordinate (coordinate_of t.now) }
{
    coordinate(t)?;
    Ok(())
}

// What is wrong with a count.
fn judge_count(t: &[u8]) -> Result<(), Fault>
    ensures { result ≡ judge_count (number_of t.now) }
{
    number(t).ok_or(Fault::Number)?;
    Ok(())
}

// What is wrong with a vertex number, where there are `count` vertices.
fn judge_vertex(t: &[u8], count: usize) -> Result<(), Fault>
    ensures { result ≡ judge_vertex count (number_of t.now) }
{
    match number(t) {
        None => Err(Fault::Number),
        Some(n) if n == 0 || count < n as usize => Err(Fault::Vertex),
        Some(_) => Ok(()),
    }
}

// What is wrong with a field of a line of that role, which is asked at each field as the definition `field_verdict` has it.
#[tactic(auto, unfolding(format::specs::Line::field_verdict))]
fn judge_field(t: &[u8], role: Role, state: ReaderState) -> Result<(), Fault>
    ensures { result ≡ field_verdict state role t.now }
{
    match role {
        Role::VertexLine => judge_coordinate(t),
        Role::ElementLine => judge_vertex(t, state.vertices),
        Role::EndLine => judge_count(t),
        Role::UnknownLine => Ok(()),
    }
}

// What is wrong with the first wrong field of s. No `split`, as at `are_fields`.
pub fn judge_fields(s: &[u8], role: Role, state: ReaderState) -> Result<(), Fault>
    ensures { result ≡ fields_verdict state role (split space s.now) }
{
    let mut rest = s;
    while let Some((field, more)) = split_once(rest, SPACE) {
        judge_field(field, role, state)?;
        rest = more;
    }
    judge_field(rest, role, state)
}
