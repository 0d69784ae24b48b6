// A vertex table, judged: ROOM, then RANGE with the first vertex beyond the limits; and its points.
#![tactic(auto)]

ghost use Rattle.std.specs.Prelude.{◌≡◌, pos, get_or};
ghost use Rattle.faults.specs.Refusals.{ruled};
ghost use Rattle.volume.specs.Volume.{point_at};
ghost use Rattle.vertices.specs.Vertices.{vertices_judged};

use faults::{Fault, Refusal};
use limits::VERTEX_WIDTH;
use volume::{Point, point_in_range};

// The number at an index; as the point's definition has it, 0 behind the table's end.
fn number_at(vertices: &[i32], at: usize) -> i32
    ensures { result ≡ get_or vertices.now «at» (pos 0) }
{
    vertices.get(at).copied().unwrap_or(0)
}

// The vertex v, from 1, of a vertex table; the numbers behind its end are 0.
#[tactic(auto, using(crate::proofs::VertexLaws::behind_end), unfolding(volume::specs::Volume::point_at))]
pub fn point_at(vertices: &[i32], v: usize) -> Point
    ensures { result ≡ point_at vertices.now «v» }
{
    let before = v.saturating_sub(1);
    // So far behind the end an index need not fit.
    if vertices.len() / VERTEX_WIDTH < before {
        return Point { x: 0, y: 0, z: 0 };
    }
    let at = VERTEX_WIDTH * before;
    Point {
        x: number_at(vertices, at),
        y: number_at(vertices, at + 1),
        z: number_at(vertices, at + 2),
    }
}

// Judges a vertex table of n vertices: ROOM, then RANGE.
#[tactic(auto, using(crate::proofs::VertexLaws::judging))]
pub fn judge_vertices(vertices: &[i32], n: usize) -> Result<(), Refusal>
    ensures { result ≡ ruled (vertices_judged vertices.now «n») }
{
    if vertices.len() / VERTEX_WIDTH < n {
        return Err(Refusal::at(Fault::Room, 0));
    }
    for k in 0..n {
        if !point_in_range(point_at(vertices, k + 1)) {
            return Err(Refusal::at(Fault::Range, k + 1));
        }
    }
    Ok(())
}
