// The page's refusals: their names, their numbers, and what a refusal carries. Only this room takes a fault apart.
#![tactic(auto)]

ghost use Rattle.std.specs.Prelude.{◌≡◌};
ghost use Rattle.faults.specs.Refusals.{number_of, refuse};
ghost use Rattle.faults.specs.Spots.{subject_of, table_spot, spot_of, refuser_of};

use std::fmt;

// A fault by the page's name, in the page's order.
#[derive(Clone, Copy, Debug, PartialEq, Eq)]
pub enum Fault {
    Long,
    Mark,
    Shape,
    Comma,
    Number,
    Range,
    Many,
    Vertex,
    Room,
    End,
    Kind,
    Spare,
    Repeat,
    Join,
}

// A fault, the place that it names, and the second number, which JOIN alone uses.
#[derive(Clone, Copy, Debug, PartialEq, Eq)]
pub struct Refusal {
    pub fault: Fault,
    pub place: usize,
    pub second: usize,
}

impl Refusal {
    /// A fault with the place that it names.
    pub fn at(fault: Fault, place: usize) -> Refusal
        ensures { result ≡ refuse fault place }
    {
        Refusal {
            fault,
            place,
            second: 0,
        }
    }
}

// `NO number place second`, as the page writes a refusal.
impl fmt::Display for Refusal {
    fn fmt<W: fmt::Write>(&self, f: &mut fmt::Formatter<W>) -> fmt::Result {
        let number = u32::from(self.fault);
        let (place, second) = (self.place, self.second);
        write!(f, "NO {number} {place} {second}")
    }
}

// Who refused: the reader of a file, or who judges tables.
#[derive(Clone, Copy, Debug, PartialEq, Eq)]
pub enum Refuser {
    Reading,
    Judging,
}

// Where a refusal lies: the file or a table as a whole, a line, a vertex, an element, or two elements, the later one first.
#[derive(Clone, Copy, Debug, PartialEq, Eq)]
pub enum Spot {
    Whole,
    Line(usize),
    Vertex(usize),
    Element(usize),
    Elements(usize, usize),
}

// In words, as a line on standard error begins.
impl fmt::Display for Spot {
    fn fmt<W: fmt::Write>(&self, f: &mut fmt::Formatter<W>) -> fmt::Result {
        match self {
            Spot::Whole => write!(f, "the file"),
            Spot::Line(n) => write!(f, "line {n}"),
            Spot::Vertex(n) => write!(f, "vertex {n} of the file"),
            Spot::Element(n) => write!(f, "element {n} of the file"),
            Spot::Elements(j, i) => write!(f, "elements {j} and {i} of the file"),
        }
    }
}

// The page's number of a fault.
impl From<Fault> for u32 {
    ghost from_gives = { λ fault n. n ≡ number_of fault };

    fn from(fault: Fault) -> u32 {
        match fault {
            Fault::Long => 1,
            Fault::Mark => 2,
            Fault::Shape => 3,
            Fault::Comma => 4,
            Fault::Number => 5,
            Fault::Range => 6,
            Fault::Many => 7,
            Fault::Vertex => 8,
            Fault::Room => 9,
            Fault::End => 10,
            Fault::Kind => 11,
            Fault::Spare => 12,
            Fault::Repeat => 13,
            Fault::Join => 14,
        }
    }
}

// The spot that a refusal of tables names: RANGE names a vertex, JOIN a pair of elements, and any other fault an element.
fn table_spot(refusal: Refusal) -> Spot
    ensures { result ≡ table_spot (subject_of refusal.fault) refusal }
{
    match refusal.fault {
        Fault::Range => Spot::Vertex(refusal.place),
        Fault::Join => Spot::Elements(refusal.place, refusal.second),
        _ => Spot::Element(refusal.place),
    }
}

// What the place of a refusal means, by its fault and by who refused.
#[tactic(auto, unfolding(crate::specs::Spots::spot_of))]
pub fn spot_of(refusal: Refusal, refuser: Refuser) -> Spot
    ensures { result ≡ spot_of refuser refusal }
{
    if refusal.place == 0 {
        return Spot::Whole;
    }
    match refuser {
        Refuser::Reading => Spot::Line(refusal.place),
        Refuser::Judging => table_spot(refusal),
    }
}

// Who gives a fault where a file is read and what was read is then judged.
pub fn refuser_of(fault: Fault) -> Refuser
    ensures { result ≡ refuser_of fault }
{
    match fault {
        Fault::Kind | Fault::Spare | Fault::Repeat | Fault::Join => Refuser::Judging,
        _ => Refuser::Reading,
    }
}
