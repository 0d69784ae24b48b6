// Whole conversions, run and compared: the page's prism, refused files, and outputs that are just long enough and one byte too short.
// A conversion prints the text, or `NO number place second`; where its output is shown, bytes that no call wrote are `.`.
#![tactic(auto)]

use converting::convert;
use faults::Refusal;
use std::io;
use writing::write_refusal;

// As in `writer_samples`: a sample program stands on its own.
fn print_part(rt: &impl Print, buffer: &[u8], n: usize) -> io::Result<()> {
    match buffer.get(..n) {
        Some(part) => rt.write_all(part),
        None => Ok(()),
    }
}

// The line of a refusal, as its writer promises it byte for byte; `Display` of a refusal promises nothing.
fn print_refusal(rt: &impl Print, refusal: Refusal) -> io::Result<()> {
    let mut line = [0; 48];
    match write_refusal(refusal, &mut line) {
        Ok(n) => print_part(rt, &line, n),
        Err(_) => Ok(()),
    }
}

// A file converted: the text, or the line of the refusal.
fn converted(rt: &impl Print, file: &[u8], output: &mut [u8]) -> io::Result<()> {
    match convert(file, output) {
        Ok(n) => print_part(rt, output, n),
        Err(refusal) => print_refusal(rt, refusal),
    }
}

fn sample(rt: &impl Print, file: &[u8]) -> io::Result<()> {
    let mut output = [b'.'; 512];
    converted(rt, file, &mut output)
}

// The page's prism: the output is just long enough, then one byte too short and left alone.
fn prism(rt: &impl Print, file: &[u8]) -> io::Result<()> {
    let mut enough = [b'.'; 166];
    converted(rt, file, &mut enough)?;
    let mut short = [b'.'; 165];
    converted(rt, file, &mut short)?;
    rt.write_all(&short)?;
    println!(rt)?;
    let mut longer = [b'.'; 170];
    converted(rt, file, &mut longer)?;
    rt.write_all(&longer)?;
    println!(rt)
}

fn main(rt: HostRuntime) -> io::Result<()> {
    prism(
        &rt,
        b"VX 0 0 0\nVX 1.25 0 0\nVX 0 1.250 0\nVX 0 0 1\nVX 1.25 0 1\nVX 0 1.25 1\nPR 1 2 3 4 5 6\nEN 6 1\n",
    )?;
    sample(&rt, b"")?;
    sample(&rt, b"EN 0 0\n")?;
    sample(&rt, b"VX 1,250 0 0\nEN 1 0\n")?;
    sample(&rt, b"VX -500.000 0.5 500\nEN 1 0\n")?;
    sample(
        &rt,
        b"VX 0 0 0\nVX 1 0 0\nVX 0 1 0\nVX 0 0 1\nTE 4 3 2 1\nEN 4 1\n",
    )?;
    sample(&rt, b"VX 0 0 0\nVX 1 0 0\nVX 0 1 0\nTE 1 2 3 3\nEN 3 1\n")?;
    sample(
        &rt,
        b"VX 0 0 0\nVX 1 0 0\nVX 0 1 0\nVX 0 0 1\nVX 1 1 1\nTE 1 2 3 4\nTE 1 2 3 5\nEN 5 2\n",
    )
}
