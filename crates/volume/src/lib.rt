// The sixfold volume of four points, judged: the determinant with rows b-a, c-a, d-a, or RANGE for the lowest point beyond the limits.
#![tactic(auto)]

ghost use Rattle.std.specs.Prelude.{◌≡◌, true, false, OnOk, IfErr};
ghost use Rattle.faults.specs.Refusals.{refuse};
ghost use Rattle.faults.specs.declared.Fault.TheVariants.{Range};
ghost use Rattle.volume.specs.Volume.{in_range, point_in_range, VolumeDone};

use faults::{Fault, Refusal};
use limits::COORDINATE_LIMIT;
use row::{determinant, minus};

mod row;

// A vertex, in thousandths of a millimetre.
#[derive(Clone, Copy, Debug, PartialEq, Eq)]
pub struct Point {
    pub x: i32,
    pub y: i32,
    pub z: i32,
}

// A coordinate lies from -COORDINATE_LIMIT to COORDINATE_LIMIT.
#[tactic(auto, unfolding(crate::specs::Volume::in_range))]
fn in_range(z: i32) -> bool
    ensures { result ≡ in_range z }
{
    (-COORDINATE_LIMIT..=COORDINATE_LIMIT).contains(&z)
}

// Each coordinate of the point is within the limits.
#[tactic(auto, unfolding(crate::specs::Volume::point_in_range))]
pub fn point_in_range(p: Point) -> bool
    ensures { result ≡ point_in_range p }
{
    in_range(p.x) && in_range(p.y) && in_range(p.z)
}

// RANGE at this place where a coordinate of the point is beyond the limits.
fn ranged(p: Point, place: usize) -> Result<(), Refusal>
    ensures ok { OnOk result (point_in_range p ≡ true) }
    ensures err { IfErr result (λ r. (point_in_range p ≡ false) × (r ≡ refuse Range place)) }
{
    if point_in_range(p) {
        Ok(())
    } else {
        Err(Refusal::at(Fault::Range, place))
    }
}

// The sixfold volume of the tetrahedron a b c d, or RANGE with the index, from 1, of the lowest point that has a coordinate beyond the limits.
pub fn sixfold_volume(a: Point, b: Point, c: Point, d: Point) -> Result<i64, Refusal>
    ensures { VolumeDone a b c d result }
{
    ranged(a, 1)?;
    ranged(b, 2)?;
    ranged(c, 3)?;
    ranged(d, 4)?;
    let u = minus(b, a);
    let v = minus(c, a);
    let w = minus(d, a);
    Ok(determinant(u, v, w))
}
