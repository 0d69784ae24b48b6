// Files as long as the limits allow, and one line or byte longer.
use crate::show::sample;
use std::io;
use std::io::{Cursor, Write};

// One byte more than a file may have.
const ROOM: usize = 65537;

// A line as many times.
fn repeat(out: &mut impl Write, line: &[u8], times: usize) -> io::Result<()> {
    for _ in 0..times {
        out.write_all(line)?;
    }
    Ok(())
}

// A file of some VX lines, some TE lines and an end.
fn mesh_file(
    rt: &impl Print,
    name: &[u8],
    vertices: usize,
    elements: usize,
    end: &[u8],
) -> io::Result<()> {
    let mut buffer = [0; ROOM];
    let mut out = Cursor::new(&mut buffer[..]);
    repeat(&mut out, b"VX 0 0 0\n", vertices)?;
    repeat(&mut out, b"TE 1 1 1 1\n", elements)?;
    out.write_all(end)?;
    let n = out.position() as usize;
    sample(rt, name, &buffer[..n.min(ROOM)])
}

// MANY and LONG, each with the largest file that is not.
pub fn limits(rt: &impl Print) -> io::Result<()> {
    mesh_file(rt, b"4,096 vertices", 4096, 0, b"EN 4096 0\n")?;
    mesh_file(rt, b"4,097 vertices", 4097, 0, b"EN 4097 0\n")?;
    mesh_file(rt, b"1,024 elements", 1, 1024, b"EN 1 1024\n")?;
    mesh_file(rt, b"1,025 elements", 1, 1025, b"EN 1 1025\n")?;
    let blank = [b'\n'; ROOM];
    sample(rt, b"65,536 bytes", &blank[..ROOM - 1])?;
    sample(rt, b"65,537 bytes", &blank)
}
