// The mark of a line, and what it tells: how many fields, and what the line is.
ghost use Rattle.std.specs.Prelude.{◌≡◌};
ghost use Rattle.format.specs.Line.{mark_of, wants, role_of};
ghost use Rattle.format.specs.Records.{tip_first};

use format::{Mark, Role};

// The mark with which a line starts.
#[tactic(auto, unfolding(format::specs::Line::mark_of, format::specs::Line::mark_with), using(format::proofs::MarkLaws::mark_short))]
pub fn mark_of(t: &[u8]) -> Mark
    ensures { result ≡ mark_of t.now }
{
    match t {
        [b'V', b'X', ..] => Mark::Vx,
        [b'T', b'E', ..] => Mark::Te,
        [b'P', b'Y', ..] => Mark::Py,
        [b'P', b'Z', ..] => Mark::Pz,
        [b'P', b'R', ..] => Mark::Pr,
        [b'H', b'X', ..] => Mark::Hx,
        [b'E', b'N', ..] => Mark::En,
        _ => Mark::Unknown,
    }
}

// How many fields a mark has; of an element, its kind.
pub fn wants(mark: Mark) -> u16
    ensures { result ≡ wants mark }
{
    match mark {
        Mark::Vx => 3,
        Mark::Te => 4,
        Mark::Py | Mark::Pz => 5,
        Mark::Pr => 6,
        Mark::Hx => 8,
        Mark::En => 2,
        Mark::Unknown => 0,
    }
}

// What a line is by its mark.
pub fn role_of(mark: Mark) -> Role
    ensures { result ≡ role_of mark }
{
    match mark {
        Mark::Vx => Role::VertexLine,
        Mark::Te | Mark::Py | Mark::Pz | Mark::Pr | Mark::Hx => Role::ElementLine,
        Mark::En => Role::EndLine,
        Mark::Unknown => Role::UnknownLine,
    }
}

// Whether a mark has the tip first among its fields.
pub fn tip_first(mark: Mark) -> bool
    ensures { result ≡ tip_first mark }
{
    matches!(mark, Mark::Pz)
}
