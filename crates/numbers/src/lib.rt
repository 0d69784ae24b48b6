// The numbers of the text file: a coordinate, a vertex number or count, each read from a whole field of any bytes.
#![tactic(auto)]

pub mod scan;

ghost use Rattle.std.specs.Prelude.{◌≡◌, ◌≤◌, length};
ghost use Rattle.limits.specs.Limits.{point, whole_digits};
ghost use Rattle.laws.specs.Pieces.{split};
ghost use Rattle.format.specs.Number.{digit_of, spelt, whole, decimals, millimetres, unsigned, coordinate_of, thousandths_of, number_of, value_of};

use crate::scan::split_once;
use faults::Fault;
use limits::{
    COMMA, DECIMAL_DIGITS, MAGNITUDE_LIMIT, MINUS, NINE, NUMBER_DIGITS, POINT, WHOLE_DIGITS, ZERO,
};

// The digit that a byte is.
#[tactic(auto, unfolding(format::specs::Number::digit_of))]
pub fn digit(x: u8) -> Option<u32>
    ensures { result ≡ digit_of x }
{
    match x {
        ZERO..=NINE => Some(u32::from(x - ZERO)),
        _ => None, // a comma too
    }
}

// The number that at most six digits spell.
fn digits(t: &[u8]) -> Option<u32>
    requires { length t.now ≤ whole_digits }
    ensures { result ≡ spelt 0 t.now }
{
    let mut n = 0;
    for &x in t {
        n = n * 10 + digit(x)?;
    }
    Some(n)
}

// 0, or one to k digits not starting with 0.
#[tactic(auto, unfolding(format::specs::Number::whole))]
fn whole(t: &[u8], k: usize) -> Option<u32>
    requires { k ≤ whole_digits }
    ensures { result ≡ whole k t.now }
{
    match t {
        [ZERO] => Some(0),
        [] | [ZERO, ..] => None,
        _ if t.len() <= k => digits(t),
        _ => None,
    }
}

// One to three digits after the point, in thousandths.
#[tactic(auto, unfolding(format::specs::Number::decimals))]
fn decimals(t: &[u8]) -> Option<u32>
    ensures { result ≡ decimals t.now }
{
    match t.len() {
        1 => Some(digits(t)? * 100),
        2 => Some(digits(t)? * 10),
        DECIMAL_DIGITS => digits(t),
        _ => None,
    }
}

// Whole millimetres and thousandths as one number, within the limits.
#[tactic(auto, unfolding(format::specs::Number::millimetres))]
fn millimetres(neg: bool, w: Option<u32>, f: Option<u32>) -> Result<i32, Fault>
    ensures { result ≡ millimetres neg w f }
{
    let (Some(w), Some(f)) = (w, f) else {
        return Err(Fault::Number);
    };
    let m = u64::from(w) * 1000 + u64::from(f);
    if m > MAGNITUDE_LIMIT {
        return Err(Fault::Range);
    }
    let v = m as i32;
    Ok(if neg { -v } else { v })
}

// What stands after the minus of a coordinate, or where it has none; a second point is no digit.
#[tactic(auto, unfolding(format::specs::Number::unsigned), using(format::proofs::NumberLaws::unsigned_cut))]
fn unsigned(neg: bool, t: &[u8]) -> Result<i32, Fault>
    ensures { result ≡ unsigned neg (split point t.now) }
{
    match split_once(t, POINT) {
        None => millimetres(neg, whole(t, WHOLE_DIGITS), Some(0)),
        Some((w, f)) => millimetres(neg, whole(w, WHOLE_DIGITS), decimals(f)),
    }
}

// A coordinate field: COMMA, then NUMBER, then RANGE, or its thousandths.
#[tactic(auto, unfolding(format::specs::Number::coordinate_of), using(format::proofs::CutLaws::cut_some))]
pub fn coordinate(t: &[u8]) -> Result<i32, Fault>
    ensures { result ≡ coordinate_of t.now }
{
    if t.contains(&COMMA) {
        return Err(Fault::Comma);
    }
    match t {
        [MINUS, rest @ ..] => unsigned(true, rest),
        _ => unsigned(false, t),
    }
}

// The thousandths of a coordinate field, 0 where it is none, as the definition `thousandths_of` has it.
#[tactic(auto, unfolding(format::specs::Number::thousandths_of))]
pub fn thousandths(t: &[u8]) -> i32
    ensures { result ≡ thousandths_of t.now }
{
    coordinate(t).unwrap_or(0)
}

// A vertex number or count.
#[tactic(auto, unfolding(format::specs::Number::number_of))]
pub fn number(t: &[u8]) -> Option<u32>
    ensures { result ≡ number_of t.now }
{
    whole(t, NUMBER_DIGITS)
}

// A vertex number or count, 0 where it is none, as the definition `value_of` has it.
#[tactic(auto, unfolding(format::specs::Number::value_of), using(format::proofs::NumberLaws::number_small))]
pub fn value(t: &[u8]) -> u16
    ensures { result ≡ value_of t.now }
{
    match number(t) {
        Some(n) => n as u16,
        None => 0,
    }
}
