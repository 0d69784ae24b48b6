// The rows of the determinant of a sixfold volume, and the determinant.
ghost use Rattle.std.specs.Prelude.{◌≡◌, true, ◌-ℤ◌};
ghost use Rattle.laws.specs.Sizes.{Within};
ghost use Rattle.volume.specs.Volume.{point_in_range, minus, minor, determinant};
ghost use Rattle.volume.specs.RowLoops.{reach};

use crate::Point;
use std::marker::Model;

// A row of the determinant: a point less another, both within the limits, so that no product or sum of the determinant leaves an i64.
#[derive(Clone, Copy)]
pub struct Row {
    x: i64,
    y: i64,
    z: i64,
}

impl Model for Row {
    ghost use Rattle.volume.specs.Volume.{Row};
    ghost use Rattle.volume.specs.RowLoops.{reach, RowWithin};

    ghost Value = { Row };

    ghost view = { λ u. record { x = u.x; y = u.y; z = u.z } };

    ghost invariant = { λ u. RowWithin reach (record { x = u.x; y = u.y; z = u.z }) };

    ghost inverse = { λ u. record { x = u.x; y = u.y; z = u.z } };
}

// q - p on one axis.
fn along(q: i32, p: i32) -> i64
    ensures { result ≡ q -ℤ p }
{
    i64::from(q) - i64::from(p)
}

// q - p, a row of the determinant; no `Sub`, since an operator of a public type would make the row public.
#[tactic(auto, unfolding(crate::specs::Volume::minus))]
pub fn minus(q: Point, p: Point) -> Row
    requires q_in_range { point_in_range q ≡ true }
    requires p_in_range { point_in_range p ≡ true }
    ensures { result ≡ minus q p }
{
    Row {
        x: along(q.x, p.x),
        y: along(q.y, p.y),
        z: along(q.z, p.z),
    }
}

// a d - b c: the determinant with rows a b and c d.
fn minor(a: i64, b: i64, c: i64, d: i64) -> i64
    requires within { Within reach a }
    requires within_2 { Within reach b }
    requires within_3 { Within reach c }
    requires within_4 { Within reach d }
    ensures { result ≡ minor a b c d }
{
    a * d - b * c
}

// The determinant with rows u, v, w; only this function knows along which row it is expanded.
pub fn determinant(u: Row, v: Row, w: Row) -> i64
    ensures { result ≡ determinant u v w }
{
    let x = minor(v.y, v.z, w.y, w.z);
    let y = minor(v.x, v.z, w.x, w.z);
    let z = minor(v.x, v.y, w.x, w.y);
    u.x * x - u.y * y + u.z * z
}
