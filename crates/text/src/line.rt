// The verdict on one line, in the page's order of tests, and the state after it.
ghost use Rattle.std.specs.Prelude.{◌≡◌, true, cond, Ok, Err};
ghost use Rattle.limits.specs.Limits.{space};
ghost use Rattle.laws.specs.Pieces.{split};
ghost use Rattle.format.specs.Line.{bad_mark, too_many, no_room, bad_counts, after_role, line_verdict};
ghost use Rattle.text.specs.ReadingLoops.{Few, open_fault};

use crate::field::{bad_shape, judge_fields, numbers};
use crate::mark::{mark_of, role_of, wants};
use faults::Fault;
use format::{ReaderState, Role, Rooms};
use limits::{ELEMENT_LIMIT, ELEMENT_WIDTH, FIELDS_AT, VERTEX_LIMIT, VERTEX_WIDTH};
use numbers::scan::from;

// Whether the mark is unknown, or VX after an element.
#[tactic(auto, unfolding(format::specs::Line::bad_mark))]
pub fn bad_mark(state: ReaderState, role: Role) -> bool
    ensures { result ≡ bad_mark state role }
{
    match role {
        Role::VertexLine => 0 < state.elements,
        Role::ElementLine | Role::EndLine => false,
        Role::UnknownLine => true,
    }
}

// Whether the line is a VX or element line beyond its limit.
#[tactic(auto, unfolding(format::specs::Line::too_many))]
pub fn too_many(state: ReaderState, role: Role) -> bool
    ensures { result ≡ too_many state role }
{
    match role {
        Role::VertexLine => VERTEX_LIMIT <= state.vertices,
        Role::ElementLine => ELEMENT_LIMIT <= state.elements,
        Role::EndLine | Role::UnknownLine => false,
    }
}

// Whether the lent table is too short for the line's record. Rooms and state stay two parameters: the rooms stay for a file, the state goes on with each line.
#[tactic(auto, unfolding(format::specs::Line::no_room))]
pub fn no_room(rooms: Rooms, state: ReaderState, role: Role) -> bool
    requires { Few state }
    ensures { result ≡ no_room rooms state role }
{
    match role {
        Role::VertexLine => rooms.vertices < VERTEX_WIDTH * (state.vertices + 1),
        Role::ElementLine => rooms.elements < ELEMENT_WIDTH * (state.elements + 1),
        Role::EndLine | Role::UnknownLine => false,
    }
}

// Whether the line is EN with counts other than the file's.
#[tactic(auto, unfolding(format::specs::Line::bad_counts), using(crate::proofs::FirstLaws::first_number, crate::proofs::FirstLaws::second_number))]
fn bad_counts(state: ReaderState, role: Role, t: &[u8]) -> bool
    ensures { result ≡ bad_counts state role (split space t.now) }
{
    match role {
        Role::EndLine => {
            let [vertices, elements]: [u16; 2] = numbers(t);
            usize::from(vertices) != state.vertices || usize::from(elements) != state.elements
        }
        _ => false,
    }
}

// The state after a line.
#[tactic(auto, unfolding(format::specs::Line::after_role))]
pub fn after(state: ReaderState, role: Role) -> ReaderState
    requires { Few state }
    ensures { result ≡ after_role state role }
{
    match role {
        Role::VertexLine => ReaderState {
            vertices: state.vertices + 1,
            ..state
        },
        Role::ElementLine => ReaderState {
            elements: state.elements + 1,
            ..state
        },
        Role::EndLine => ReaderState {
            ended: true,
            ..state
        },
        Role::UnknownLine => state,
    }
}

// A line without its byte 10 at the end of the file.
pub fn open_line(state: ReaderState) -> Fault
    ensures { result ≡ open_fault state }
{
    if state.ended {
        Fault::Mark
    } else {
        Fault::Shape
    }
}

// A test of a line: the fault where it is true.
fn refuse_if(test: bool, fault: Fault) -> Result<(), Fault>
    ensures { result ≡ cond test (Err fault) (Ok tt) }
{
    if test { Err(fault) } else { Ok(()) }
}

// A line that its byte 10 ends.
#[tactic(auto, unfolding(format::specs::Line::line_verdict, format::specs::Line::fields_of, format::specs::Line::after))]
pub fn judge_line(t: &[u8], rooms: Rooms, state: ReaderState) -> Result<ReaderState, Fault>
    requires { Few state }
    ensures { result ≡ line_verdict rooms state true t.now }
{
    refuse_if(state.ended, Fault::Mark)?;
    let mark = mark_of(t);
    let role = role_of(mark);
    refuse_if(bad_mark(state, role), Fault::Mark)?;
    refuse_if(too_many(state, role), Fault::Many)?;
    refuse_if(bad_shape(t, usize::from(wants(mark))), Fault::Shape)?;
    let fields = from(t, FIELDS_AT);
    judge_fields(fields, role, state)?;
    refuse_if(no_room(rooms, state, role), Fault::Room)?;
    refuse_if(bad_counts(state, role, fields), Fault::End)?;
    Ok(after(state, role))
}
