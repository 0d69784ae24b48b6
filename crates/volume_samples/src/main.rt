// Sixfold volumes, printed as the library answers them: a line is the volume, or `NO number place second`.
#![tactic(auto)]

use faults::Refusal;
use std::io;
use volume::{Point, sixfold_volume};

fn point(x: i32, y: i32, z: i32) -> Point {
    Point { x, y, z }
}

fn print_answer(rt: &impl Print, answer: Result<i64, Refusal>) -> io::Result<()> {
    match answer {
        Ok(volume) => println!(rt; "{volume}"),
        Err(refusal) => println!(rt; "{refusal}"),
    }
}

// The page's prism, cut; one of its tetrahedra mirrored; four of its corners on one face.
fn prism(rt: &impl Print) -> io::Result<()> {
    let first = point(0, 0, 0);
    let second = point(1250, 0, 0);
    let third = point(0, 1250, 0);
    let fourth = point(0, 0, 1000);
    let fifth = point(1250, 0, 1000);
    let sixth = point(0, 1250, 1000);
    print_answer(rt, sixfold_volume(first, second, third, sixth))?;
    print_answer(rt, sixfold_volume(first, second, sixth, fifth))?;
    print_answer(rt, sixfold_volume(first, fourth, fifth, sixth))?;
    print_answer(rt, sixfold_volume(first, third, second, sixth))?;
    print_answer(rt, sixfold_volume(first, second, fifth, fourth))
}

// The largest volume that four points within the limits have, and the same mirrored.
fn largest(rt: &impl Print) -> io::Result<()> {
    let a = point(-500000, -500000, -500000);
    let b = point(500000, 500000, -500000);
    let c = point(-500000, 500000, 500000);
    let d = point(500000, -500000, 500000);
    print_answer(rt, sixfold_volume(a, b, c, d))?;
    print_answer(rt, sixfold_volume(a, c, b, d))
}

// A point just beyond a limit, at each place; then at two places, of which the lower is named.
fn beyond(rt: &impl Print) -> io::Result<()> {
    let inside = point(500000, -500000, 500000);
    let right = point(500001, 0, 0);
    let front = point(0, -500001, 0);
    let above = point(0, 0, 500001);
    let left = point(-500001, 0, 0);
    print_answer(rt, sixfold_volume(right, inside, inside, inside))?;
    print_answer(rt, sixfold_volume(inside, front, inside, inside))?;
    print_answer(rt, sixfold_volume(inside, inside, above, inside))?;
    print_answer(rt, sixfold_volume(inside, inside, inside, left))?;
    print_answer(rt, sixfold_volume(inside, front, inside, left))
}

fn main(rt: HostRuntime) -> io::Result<()> {
    prism(&rt)?;
    largest(&rt)?;
    beyond(&rt)
}
