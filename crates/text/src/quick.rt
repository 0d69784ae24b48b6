// A quick reading of a line beyond question: a VX line, or an element line but PZ, whose fields are all good. It touches each byte once and
// searches for nothing. It declines any other line, which file.rt then judges.
ghost use Rattle.std.specs.Fn.{FnReturnsAt};
ghost use Rattle.std.specs.Prelude.{List, ℕ, ◌≡◌, ◌*◌, ◌≤◌, ◌<◌, ◌∷◌, length, IfSome};
ghost use Rattle.limits.specs.Limits.{whole_digits, vertex_width, element_width};
ghost use Rattle.format.specs.Number.{thousandths_of, value_of};
ghost use Rattle.format.specs.Line.{mark_of, wants};
ghost use Rattle.format.specs.declared.ReaderState.{ReaderState};
ghost use Rattle.format.specs.declared.Role.{Role};
ghost use Rattle.text.specs.ReadingLoops.{Ready};
ghost use Rattle.text.specs.QuickLoops.{Reads, DigitsAt, WholeAt, DecimalsAt, PartAt, UnsignedAt, CoordinateAt, NumberAt, FieldsAt, ElementRead, LineQuick, end_of};

use crate::line::{bad_mark, no_room, too_many};
use crate::mark::{role_of, tip_first, wants};
use format::{Mark, ReaderState, Role, Rooms};
use limits::{
    DECIMAL_DIGITS, ELEMENT_NUMBERS, ELEMENT_WIDTH, LINE_END, MAGNITUDE_LIMIT, MINUS,
    NUMBER_DIGITS, POINT, SPACE, VERTEX_NUMBERS, VERTEX_WIDTH, WHOLE_DIGITS, ZERO,
};
use numbers::digit;

// What was read at the front of a text, and what stands behind it.
#[derive(Clone, Copy)]
struct Run<'a, T> {
    value: T,
    rest: &'a [u8],
}

// The number that the digits at the front of a text spell, at most so many, and how many they are.
fn digit_run(t: &[u8], most: usize) -> (u32, usize)
    requires { most ≤ whole_digits }
    ensures { DigitsAt t.now most result.0 result.1 }
{
    let front = &t[..most.min(t.len())];
    let mut value = 0;
    for (count, x) in front.iter().enumerate() {
        match digit(*x) {
            Some(d) => value = value * 10 + d,
            None => return (value, count),
        }
    }
    (value, front.len())
}

// 0, or digits not starting with 0.
fn quick_whole(t: &[u8], most: usize) -> Option<Run<'_, u32>>
    requires { most ≤ whole_digits }
    ensures { IfSome result (λ r. WholeAt t.now most r.value r.rest.now) }
{
    let (value, count) = digit_run(t, most);
    if count == 0 || (t[0] == ZERO && count != 1) {
        return None;
    }
    Some(Run {
        value,
        rest: &t[count..],
    })
}

// One to three digits, in thousandths.
fn quick_decimals(t: &[u8]) -> Option<Run<'_, u32>>
    ensures { IfSome result (λ r. DecimalsAt t.now r.value r.rest.now) }
{
    let (digits, count) = digit_run(t, DECIMAL_DIGITS);
    let value = match count {
        0 => return None,
        1 => digits * 100,
        2 => digits * 10,
        _ => digits,
    };
    Some(Run {
        value,
        rest: &t[count..],
    })
}

// What stands behind the whole millimetres of a coordinate: a point and decimals, or 0 thousandths.
#[tactic(auto, using(crate::proofs::QuickNumbers::part_none))]
fn quick_part(t: &[u8]) -> Option<Run<'_, u32>>
    ensures { IfSome result (λ r. PartAt t.now r.value r.rest.now) }
{
    match t {
        [POINT, decimals @ ..] => quick_decimals(decimals),
        _ => Some(Run { value: 0, rest: t }),
    }
}

// A coordinate without its sign.
#[tactic(auto, using(crate::proofs::QuickNumbers::unsigned_at))]
fn quick_unsigned(neg: bool, t: &[u8]) -> Option<Run<'_, i32>>
    ensures { IfSome result (λ r. UnsignedAt neg t.now r.value r.rest.now) }
{
    let whole = quick_whole(t, WHOLE_DIGITS)?;
    let part = quick_part(whole.rest)?;
    let value = whole.value * 1000 + part.value;
    if MAGNITUDE_LIMIT < u64::from(value) {
        return None;
    }
    let v = value as i32;
    Some(Run {
        value: if neg { -v } else { v },
        rest: part.rest,
    })
}

// A coordinate.
fn quick_coordinate(t: &[u8]) -> Option<Run<'_, i32>>
    ensures { IfSome result (λ r. CoordinateAt t.now r.value r.rest.now) }
{
    let (neg, digits) = match t {
        [MINUS, digits @ ..] => (true, digits),
        _ => (false, t),
    };
    quick_unsigned(neg, digits)
}

// A vertex number, where there are `count` vertices.
#[tactic(auto, using(crate::proofs::QuickNumbers::number_at))]
fn quick_number(t: &[u8], count: usize) -> Option<Run<'_, u16>>
    ensures { IfSome result (λ r. NumberAt t.now count r.value r.rest.now) }
{
    let run = quick_whole(t, NUMBER_DIGITS)?;
    if run.value == 0 || count < run.value as usize {
        return None;
    }
    Some(Run {
        value: run.value as u16,
        rest: run.rest,
    })
}

// The byte that ends field k of n.
fn end_of(k: usize, n: usize) -> u8
    ensures { result ≡ end_of k n }
{
    if k == n { LINE_END } else { SPACE }
}

// What stands behind the byte x at the front of a text.
fn behind(t: &[u8], x: u8) -> Option<&[u8]>
    ensures { IfSome result (λ rest. t.now ≡ x ∷ rest.now) }
{
    match t {
        [first, rest @ ..] if *first == x => Some(rest),
        _ => None,
    }
}

// The fields of a line up to its end, each read by `read`: their values.
fn quick_fields<'a, T: Copy, F: Fn(&[u8]) -> Option<Run<'_, T>>>(
    t: &'a [u8],
    values: &mut [T],
    read: F,
) -> Option<&'a [u8]>
    requires some { 0 < length values.old }
    requires callable { F.IsAlwaysCallable read }
    ensures { (value : List ℕ → T) (state : ReaderState) (role : Role)
        → Reads (FnReturnsAt F.Fn read) value state role
        → IfSome result (λ rest. FieldsAt value state role t.now values.new rest.now) }
{
    let last = values.len();
    let mut rest = t;
    for (k, place) in values.iter_mut().enumerate() {
        let field = read(rest)?;
        *place = field.value;
        rest = behind(field.rest, end_of(k + 1, last))?;
    }
    Some(rest)
}

// The coordinates of a VX line, up to its end.
fn quick_coordinates<'a>(t: &'a [u8], coordinates: &mut [i32]) -> Option<&'a [u8]>
    requires { 0 < length coordinates.old }
    ensures { (state : ReaderState) → IfSome result (λ rest. FieldsAt thousandths_of state Role.VertexLine t.now coordinates.new rest.now) }
{
    quick_fields(t, coordinates, quick_coordinate)
}

// The corners of an element line, up to its end.
fn quick_corners<'a>(t: &'a [u8], state: ReaderState, corners: &mut [u16]) -> Option<&'a [u8]>
    requires { 0 < length corners.old }
    ensures { IfSome result (λ rest. FieldsAt value_of state Role.ElementLine t.now corners.new rest.now) }
{
    quick_fields(t, corners, |field| quick_number(field, state.vertices))
}

// The record of an element line but PZ, up to its end.
fn quick_element<'a>(
    t: &'a [u8],
    mark: Mark,
    state: ReaderState,
    element: &mut [u16],
) -> Option<&'a [u8]>
    requires some { 0 < wants mark }
    requires long { length element.old ≡ element_width }
    ensures { IfSome result (λ rest. ElementRead mark state t.now element.new rest.now) }
{
    if tip_first(mark) {
        return None;
    }
    let kind = wants(mark);
    element.fill(0);
    element[0] = kind;
    quick_corners(t, state, &mut element[1..=usize::from(kind)])
}

// The line at the front of t, where it is beyond question: how many bytes it takes with its byte 10.
#[tactic(auto, unfolding(format::specs::Line::too_many))]
pub fn quick_line(
    t: &[u8],
    mark: Mark,
    rooms: Rooms,
    state: ReaderState,
    vertices: &mut [i32; VERTEX_NUMBERS],
    elements: &mut [u16; ELEMENT_NUMBERS],
) -> Option<usize>
    requires { (mark ≡ mark_of t.now) × Ready t.now state vertices.old elements.old }
    ensures { LineQuick t.now mark rooms state vertices.old elements.old result vertices.new elements.new }
{
    let [_, _, SPACE, fields @ ..] = t else {
        return None;
    };
    let role = role_of(mark);
    if state.ended
        || bad_mark(state, role)
        || too_many(state, role)
        || no_room(rooms, state, role)
    {
        return None;
    }
    let rest = match role {
        Role::VertexLine => {
            let at = VERTEX_WIDTH * state.vertices;
            quick_coordinates(fields, &mut vertices[at..at + VERTEX_WIDTH])?
        }
        Role::ElementLine => {
            let at = ELEMENT_WIDTH * state.elements;
            quick_element(fields, mark, state, &mut elements[at..at + ELEMENT_WIDTH])?
        }
        Role::EndLine | Role::UnknownLine => return None,
    };
    Some(t.len() - rest.len())
}
