// Tables judged, cut and counted by sign, printed as the library answers them: a line is the answer's numbers, or `NO number place second`.
#![tactic(auto)]

use signs::SignCounts;
use std::io;

fn judge(
    rt: &impl Print,
    name: &str,
    vertices: usize,
    count: usize,
    table: &[u16],
) -> io::Result<()> {
    print!(rt; "{name}")?;
    match judging::judge_mesh(vertices, count, table) {
        Ok(()) => println!(rt; " DONE"),
        Err(refusal) => println!(rt; " {refusal}"),
    }
}

// The numbers of an output, then a line's end.
fn print_output(rt: &impl Print, output: &[u16]) -> io::Result<()> {
    for number in output {
        print!(rt; " {number}")?;
    }
    println!(rt)
}

// Cuts into an output of 32 numbers 9, so that what is not written stays visible.
fn cut(
    rt: &impl Print,
    name: &str,
    vertices: usize,
    count: usize,
    table: &[u16],
) -> io::Result<()> {
    let mut output = [9u16; 32];
    print!(rt; "{name}")?;
    match mesh::cut_mesh(vertices, count, table, &mut output) {
        Ok(counts) => {
            print!(rt; " DONE {}:", counts.tetrahedra)?;
            print_output(rt, &output)
        }
        Err(refusal) => {
            println!(rt; " {refusal}")?;
            print_output(rt, &output[..4])
        }
    }
}

fn signs(
    rt: &impl Print,
    name: &str,
    count: usize,
    table: &[u16],
    vertices: &[i32],
) -> io::Result<()> {
    print!(rt; "{name}")?;
    match signs::sign_report(6, count, table, vertices) {
        Ok(
            SignCounts {
                positive,
                zero,
                negative,
                unsound,
            },
        ) => println!(rt; " DONE {positive} {zero} {negative} {unsound}"),
        Err(refusal) => println!(rt; " {refusal}"),
    }
}

// The page's samples of fitting.
fn fits(rt: &impl Print) -> io::Result<()> {
    let same = [8u16, 1, 2, 3, 4, 5, 6, 7, 8, 8, 5, 6, 7, 8, 9, 10, 11, 12];
    judge(rt, "HX on HX:", 12, 2, &same)?;
    let turned = [8u16, 1, 2, 3, 4, 5, 6, 7, 8, 8, 5, 8, 7, 6, 9, 12, 11, 10];
    judge(rt, "HX the wrong way round:", 12, 2, &turned)?;
    let part = [8u16, 1, 2, 3, 4, 5, 6, 7, 8, 4, 5, 6, 7, 9, 0, 0, 0, 0];
    judge(rt, "TE on part of a face:", 12, 2, &part)?;
    let twice = [4u16, 1, 2, 3, 4, 0, 0, 0, 0, 4, 1, 2, 3, 4, 0, 0, 0, 0];
    judge(rt, "an element twice:", 4, 2, &twice)
}

// A hexahedron, a pyramid and a prism on faces of it, a tetrahedron on the pyramid.
fn four_solids(rt: &impl Print) -> io::Result<()> {
    let all = [
        8u16, 1, 2, 3, 4, 5, 6, 7, 8, 5, 5, 6, 7, 8, 9, 0, 0, 0, 6, 6, 10, 2, 7, 11, 3, 0, 0, 4, 5,
        6, 9, 12, 0, 0, 0, 0,
    ];
    judge(rt, "all four solids:", 12, 4, &all)
}

// One table for each refusal of judging.
fn refusals(rt: &impl Print) -> io::Result<()> {
    let good = [4u16, 1, 2, 3, 4, 0, 0, 0, 0];
    judge(rt, "4,097 vertices:", 4097, 1, &good)?;
    judge(rt, "1,025 elements:", 4, 1025, &good)?;
    judge(rt, "a table one record short:", 4, 2, &good)?;
    let kind = [7u16, 1, 2, 3, 4, 0, 0, 0, 0];
    judge(rt, "kind 7:", 4, 1, &kind)?;
    let zero = [4u16, 1, 2, 0, 4, 0, 0, 0, 0];
    judge(rt, "vertex 0:", 4, 1, &zero)?;
    judge(rt, "a vertex above the count:", 3, 1, &good)?;
    let spare = [4u16, 1, 2, 3, 4, 0, 0, 0, 1];
    judge(rt, "an unused number:", 4, 1, &spare)?;
    let repeat = [4u16, 1, 2, 3, 1, 0, 0, 0, 0];
    judge(rt, "a vertex twice:", 4, 1, &repeat)
}

fn cuts(rt: &impl Print) -> io::Result<()> {
    let prism = [6u16, 1, 2, 3, 4, 5, 6, 0, 0];
    cut(rt, "the prism:", 6, 1, &prism)?;
    let hexahedron = [8u16, 1, 3, 4, 5, 6, 7, 2, 8];
    cut(rt, "a hexahedron with n 3:", 8, 1, &hexahedron)?;
    let two = [8u16, 1, 2, 3, 4, 5, 6, 7, 8, 8, 5, 6, 7, 8, 9, 10, 11, 12];
    cut(rt, "no room for twelve:", 12, 2, &two)
}

// The corners of a prism, three numbers a vertex.
const POINTS: [i32; 18] = [
    0, 0, 0, 1250, 0, 0, 0, 1250, 0, 0, 0, 1000, 1250, 0, 1000, 0, 1250, 1000,
];

// The same in one plane.
const FLAT: [i32; 18] = [
    0, 0, 0, 1250, 0, 0, 0, 1250, 0, 0, 0, 0, 1250, 0, 0, 0, 1250, 0,
];

// The same with a coordinate beyond the limits.
const FAR: [i32; 18] = [
    0, 0, 0, 1250, 0, 0, 0, 500001, 0, 0, 0, 1000, 1250, 0, 1000, 0, 1250, 1000,
];

fn reports(rt: &impl Print) -> io::Result<()> {
    let prism = [6u16, 1, 2, 3, 4, 5, 6, 0, 0];
    let mirrored = [6u16, 1, 3, 2, 4, 6, 5, 0, 0];
    let points = POINTS;
    signs(rt, "the prism:", 1, &prism, &points)?;
    signs(rt, "mirrored:", 1, &mirrored, &points)?;
    let flat = FLAT;
    signs(rt, "flat:", 1, &prism, &flat)?;
    let far = FAR;
    signs(rt, "a vertex beyond the limits:", 1, &prism, &far)?;
    let short = [0i32, 0, 0];
    signs(rt, "a short vertex table:", 1, &prism, &short)
}

fn main(rt: HostRuntime) -> io::Result<()> {
    fits(&rt)?;
    four_solids(&rt)?;
    refusals(&rt)?;
    cuts(&rt)?;
    reports(&rt)
}
