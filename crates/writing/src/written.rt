// The lines that are written, byte by byte into lent memory from an index on; each function gives the index behind its bytes. A byte that
// finds no room is left out: what is promised of bytes is promised where all of them have room.
// The index is handed on from call to call: in a copy in plain Rust, a struct that keeps it with the memory was a quarter slower, and one with memory of its own by half.
ghost use Rattle.std.specs.Prelude.{◌≡◌, ◌∷◌, [], ◌%◌, ◌<◌, nat_abs};
ghost use Rattle.limits.specs.Limits.{space, vertex_limit};
ghost use Rattle.records.specs.Record.{record_finding};
ghost use Rattle.format.specs.Line.{mark_bytes};
ghost use Rattle.writing.specs.Written.{digit, decimal, millimetres_of, coordinate_text, closed, mark_of_kind, vertex_line, element_line, end_line, refusal_line};
ghost use Rattle.writing.specs.WriteLoops.{Put};

use faults::Refusal;
use format::Mark;
use limits::{ELEMENT_WIDTH, LINE_END, MINUS, POINT, SPACE, ZERO};
use records::{corners_of, kind_of};

// A byte.
#[tactic(auto, using(crate::proofs::PutLaws::put_byte, crate::proofs::PutLaws::put_full))]
fn push(line: &mut [u8], at: usize, x: u8) -> usize
    ensures { Put line.old at (x ∷ []) line.new result }
{
    if at < line.len() {
        line[at] = x;
        return at + 1;
    }
    at
}

// The last digit of a number.
fn digit(k: usize) -> u8
    ensures { result ≡ digit (k % 10) }
{
    ZERO + (k % 10) as u8
}

// A number of one digit.
#[tactic(auto, using(crate::proofs::WrittenLaws::put_one_digit))]
fn put_below_ten(line: &mut [u8], at: usize, k: usize) -> usize
    requires { k < 10 }
    ensures { Put line.old at (decimal k) line.new result }
{
    push(line, at, ZERO + k as u8)
}

// A number of at most two digits. No formatter of the library: this writes into lent memory, without a buffer of its own, and this quick path is without recursion.
fn put_below_hundred(line: &mut [u8], at: usize, k: usize) -> usize
    requires { k < 100 }
    ensures { Put line.old at (decimal k) line.new result }
{
    if k < 10 {
        return put_below_ten(line, at, k);
    }
    let next = put_below_ten(line, at, k / 10);
    push(line, next, digit(k))
}

// A number of any length, no formatter of the library, as at `put_below_hundred`.
fn put_digits(line: &mut [u8], at: usize, k: usize) -> usize
    ensures { Put line.old at (decimal k) line.new result }
{
    if k < 10 {
        return put_below_ten(line, at, k);
    }
    let next = put_digits(line, at, k / 10);
    push(line, next, digit(k))
}

// A number in decimal; one of at most four digits, as a record has, is put without recursion.
fn put_number(line: &mut [u8], at: usize, k: usize) -> usize
    ensures { Put line.old at (decimal k) line.new result }
{
    if k < 100 {
        return put_below_hundred(line, at, k);
    }
    if k < 10000 {
        let hundreds = put_below_hundred(line, at, k / 100);
        let tens = push(line, hundreds, digit(k / 10));
        return push(line, tens, digit(k));
    }
    put_digits(line, at, k)
}

// A coordinate without its sign.
fn magnitude(z: i32) -> usize
    ensures { result ≡ nat_abs z }
{
    z.unsigned_abs() as usize
}

// Thousandths as millimetres, always with three decimals.
fn put_millimetres(line: &mut [u8], at: usize, m: usize) -> usize
    ensures { Put line.old at (millimetres_of m) line.new result }
{
    let whole = put_number(line, at, m / 1000);
    let pointed = push(line, whole, POINT);
    let tenths = push(line, pointed, digit(m / 100));
    let hundredths = push(line, tenths, digit(m / 10));
    push(line, hundredths, digit(m))
}

// A coordinate, with no minus on zero.
#[tactic(auto, using(crate::proofs::WrittenLaws::signed_put, crate::proofs::WrittenLaws::unsigned_put))]
fn put_coordinate(line: &mut [u8], at: usize, z: i32) -> usize
    ensures { Put line.old at (coordinate_text z) line.new result }
{
    let m = magnitude(z);
    if z < 0 {
        let signed = push(line, at, MINUS);
        return put_millimetres(line, signed, m);
    }
    put_millimetres(line, at, m)
}

// A field that is a coordinate, preceded by one space.
fn coordinate_field(line: &mut [u8], at: usize, z: i32) -> usize
    ensures { Put line.old at (space ∷ coordinate_text z) line.new result }
{
    let spaced = push(line, at, SPACE);
    put_coordinate(line, spaced, z)
}

// A field that is a number, preceded by one space.
fn number_field(line: &mut [u8], at: usize, k: usize) -> usize
    ensures { Put line.old at (space ∷ decimal k) line.new result }
{
    let spaced = push(line, at, SPACE);
    put_number(line, spaced, k)
}

// Two bytes.
fn put_two(line: &mut [u8], at: usize, a: u8, b: u8) -> usize
    ensures { Put line.old at (a ∷ b ∷ []) line.new result }
{
    let next = push(line, at, a);
    push(line, next, b)
}

// The two bytes of a mark.
#[tactic(auto, using(crate::proofs::PutLaws::put_none))]
fn put_mark(line: &mut [u8], at: usize, mark: Mark) -> usize
    ensures { Put line.old at (mark_bytes mark) line.new result }
{
    match mark {
        Mark::Vx => put_two(line, at, b'V', b'X'),
        Mark::Te => put_two(line, at, b'T', b'E'),
        Mark::Py => put_two(line, at, b'P', b'Y'),
        Mark::Pz => put_two(line, at, b'P', b'Z'),
        Mark::Pr => put_two(line, at, b'P', b'R'),
        Mark::Hx => put_two(line, at, b'H', b'X'),
        Mark::En => put_two(line, at, b'E', b'N'),
        Mark::Unknown => at,
    }
}

// The mark of a kind, never PZ; kinds are the page's numbers.
#[tactic(auto, unfolding(crate::specs::Written::mark_of_kind))]
fn mark_of_kind(kind: u16) -> Mark
    ensures { result ≡ mark_of_kind kind }
{
    match kind {
        4 => Mark::Te,
        5 => Mark::Py,
        6 => Mark::Pr,
        8 => Mark::Hx,
        _ => Mark::Unknown,
    }
}

// VX x y z, with its byte 10.
pub fn vertex_line(line: &mut [u8], x: i32, y: i32, z: i32) -> usize
    ensures { Put line.old 0 (closed (vertex_line x y z)) line.new result }
{
    let mark = put_mark(line, 0, Mark::Vx);
    let first = coordinate_field(line, mark, x);
    let second = coordinate_field(line, first, y);
    let third = coordinate_field(line, second, z);
    push(line, third, LINE_END)
}

// TE, PY, PR or HX and the vertex numbers, with its byte 10.
pub fn element_line(line: &mut [u8], element: [u16; ELEMENT_WIDTH]) -> usize
    requires { record_finding vertex_limit element ≡ Ok tt }
    ensures { Put line.old 0 (closed (element_line element)) line.new result }
{
    let mut at = put_mark(line, 0, mark_of_kind(kind_of(&element)));
    for &vertex in corners_of(&element) {
        at = number_field(line, at, usize::from(vertex));
    }
    push(line, at, LINE_END)
}

// EN with the two counts and its byte 10.
pub fn end_line(line: &mut [u8], vertices: usize, elements: usize) -> usize
    ensures { Put line.old 0 (closed (end_line vertices elements)) line.new result }
{
    let mark = put_mark(line, 0, Mark::En);
    let first = number_field(line, mark, vertices);
    let second = number_field(line, first, elements);
    push(line, second, LINE_END)
}

// NO number place second, with its byte 10. `Display` of a refusal says the same for people; this line is promised byte for byte.
pub fn refusal_line(line: &mut [u8], refusal: Refusal) -> usize
    ensures { Put line.old 0 (refusal_line refusal) line.new result }
{
    let no = put_two(line, 0, b'N', b'O');
    let number = number_field(line, no, u32::from(refusal.fault) as usize);
    let place = number_field(line, number, refusal.place);
    let second = number_field(line, place, refusal.second);
    push(line, second, LINE_END)
}
