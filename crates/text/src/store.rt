// The records of the lines, kept in two tables of the reader's own, each in the state before its line.
ghost use Rattle.std.specs.Prelude.{◌≡◌, ◌+◌, ◌≤◌, length};
ghost use Rattle.std.proofs.lemmas.List.Edits.{sets};
ghost use Rattle.limits.specs.Limits.{space, vertex_width, element_width};
ghost use Rattle.laws.specs.Pieces.{split};
ghost use Rattle.format.specs.Records.{vertex_record, element_record, vertex_records, element_records};
ghost use Rattle.format.specs.declared.ReaderState.{ReaderState};
ghost use Rattle.text.specs.ReadingLoops.{Few, RoomForLine, StoredLine};

use crate::field::{first_of, numbers};
use crate::mark::{mark_of, role_of, tip_first, wants};
use format::{Mark, ReaderState, Role};
use limits::{CORNER_WIDTH, ELEMENT_WIDTH, FIELDS_AT, VERTEX_WIDTH};
use numbers::scan::from;
use numbers::thousandths;

// The values of a record at place `at` of a table with room for them.
#[tactic(auto, using(crate::proofs::StoreLaws::put_there))]
fn put<T: Copy>(values: &[T], at: usize, table: &mut [T])
    requires { at + length values.now ≤ length table.old }
    ensures { table.new ≡ sets table.old at values.now }
{
    table[at..at + values.len()].copy_from_slice(values);
}

// The record of a VX line with the fields s.
#[tactic(auto, unfolding(format::specs::Records::vertex_record))]
fn vertex_record(s: &[u8]) -> [i32; VERTEX_WIDTH]
    ensures { (state : ReaderState) → result ≡ vertex_record state (split space s.now) }
{
    first_of(s, thousandths)
}

// The record of an element line with the fields s.
#[tactic(auto, unfolding(format::specs::Records::element_record))]
fn element_record(mark: Mark, s: &[u8]) -> [u16; ELEMENT_WIDTH]
    ensures { (state : ReaderState) → result ≡ element_record state mark (split space s.now) }
{
    let kind = wants(mark);
    let [a, b, c, d, e, f, g, h]: [u16; CORNER_WIDTH] = numbers(s);
    if tip_first(mark) {
        [kind, b, c, d, e, a, f, g, h]
    } else {
        [kind, a, b, c, d, e, f, g, h]
    }
}

// The record of a line, after those of the lines before it.
#[tactic(auto, unfolding(format::specs::Records::vertex_records, format::specs::Records::element_records, format::specs::Line::fields_of), using(crate::proofs::StoreLaws::vertex_room, crate::proofs::StoreLaws::element_room))]
pub fn keep_line(l: &[u8], state: ReaderState, vertices: &mut [i32], elements: &mut [u16])
    requires few { Few state }
    requires room { RoomForLine l.now state vertices.old elements.old }
    ensures { StoredLine l.now state vertices.old elements.old vertices.new elements.new }
{
    let mark = mark_of(l);
    let fields = from(l, FIELDS_AT);
    match role_of(mark) {
        Role::VertexLine => put(
            &vertex_record(fields),
            VERTEX_WIDTH * state.vertices,
            vertices,
        ),
        Role::ElementLine => put(
            &element_record(mark, fields),
            ELEMENT_WIDTH * state.elements,
            elements,
        ),
        Role::EndLine | Role::UnknownLine => {}
    }
}
