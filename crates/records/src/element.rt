// The element that a record holds.
ghost use Rattle.std.specs.Prelude.{◌≡◌};
ghost use Rattle.records.specs.Record.{element_of};
ghost use Rattle.records.specs.Elements.{seen};

use crate::{corners_of, kind_of, solid_of};
use solids::Solid;

// An element: its solid, and the vertex numbers of its corners in the order of their places.
#[derive(Clone, Copy, Debug, PartialEq, Eq)]
pub struct Element<'a> {
    pub solid: Solid,
    pub corners: &'a [u16],
}

impl<'a> Element<'a> {
    // The element that a record holds.
    #[tactic(auto, unfolding(crate::specs::Record::element_of))]
    pub fn of(numbers: &'a [u16]) -> Element<'a>
        ensures { seen result ≡ element_of numbers.now }
    {
        Element {
            solid: solid_of(kind_of(numbers)),
            corners: corners_of(numbers),
        }
    }
}
