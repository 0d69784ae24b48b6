// Records as the library writes them, one a call: a line is the record, or `NO number place second` where the library refuses it.
#![tactic(auto)]

use faults::{Fault, Refusal};
use std::io;
use writing::{write_element, write_end, write_refusal, write_vertex};

fn print_part(rt: &impl Print, buffer: &[u8], n: usize) -> io::Result<()> {
    match buffer.get(..n) {
        Some(part) => rt.write_all(part),
        None => Ok(()),
    }
}

// By `write_refusal`, which is tested here, and not by `Display`.
fn print_refusal(rt: &impl Print, refusal: Refusal) -> io::Result<()> {
    let mut buffer = [0u8; 48];
    match write_refusal(refusal, &mut buffer) {
        Ok(n) => print_part(rt, &buffer, n),
        Err(_) => Ok(()),
    }
}

// What a writer left in a buffer, by its answer.
fn print_answer(rt: &impl Print, answer: Result<usize, Refusal>, buffer: &[u8]) -> io::Result<()> {
    match answer {
        Ok(n) => print_part(rt, buffer, n),
        Err(refusal) => print_refusal(rt, refusal),
    }
}

// What a writer leaves in a buffer with room for any line.
fn print_line<F: FnOnce(&mut [u8]) -> Result<usize, Refusal>>(
    rt: &impl Print,
    write: F,
) -> io::Result<()>
    requires { F.IsAlwaysCallable write }
{
    let mut buffer = [0u8; 48];
    let answer = write(&mut buffer);
    print_answer(rt, answer, &buffer)
}

fn vertex(rt: &impl Print, x: i32, y: i32, z: i32) -> io::Result<()> {
    print_line(rt, |line| write_vertex(x, y, z, line))
}

fn element(rt: &impl Print, record: [u16; 9]) -> io::Result<()> {
    print_line(rt, |line| write_element(record, line))
}

fn end(rt: &impl Print, vertices: usize, elements: usize) -> io::Result<()> {
    print_line(rt, |line| write_end(vertices, elements, line))
}

// The page's prism, cut: the file that the page shows, whole.
fn prism(rt: &impl Print) -> io::Result<()> {
    vertex(rt, 0, 0, 0)?;
    vertex(rt, 1250, 0, 0)?;
    vertex(rt, 0, 1250, 0)?;
    vertex(rt, 0, 0, 1000)?;
    vertex(rt, 1250, 0, 1000)?;
    vertex(rt, 0, 1250, 1000)?;
    element(rt, [4, 1, 2, 3, 6, 0, 0, 0, 0])?;
    element(rt, [4, 1, 2, 6, 5, 0, 0, 0, 0])?;
    element(rt, [4, 1, 4, 5, 6, 0, 0, 0, 0])?;
    end(rt, 6, 3)
}

// Zero and its neighbours, small and large coordinates, the limits and just beyond them.
fn coordinates(rt: &impl Print) -> io::Result<()> {
    vertex(rt, 0, 1, -1)?;
    vertex(rt, -10, -100, -1000)?;
    vertex(rt, 999, -999, 12345)?;
    vertex(rt, 500000, -500000, 499999)?;
    vertex(rt, 500001, 0, 0)?;
    vertex(rt, 0, -500001, 0)?;
    vertex(rt, 0, 0, 2147483647)?;
    vertex(rt, -2147483648, 0, 0)
}

// Each kind, the highest vertex number, and each fault of a record.
fn elements(rt: &impl Print) -> io::Result<()> {
    element(rt, [5, 1, 2, 3, 4, 5, 0, 0, 0])?;
    element(rt, [6, 10, 20, 30, 40, 50, 60, 0, 0])?;
    element(rt, [8, 4089, 4090, 4091, 4092, 4093, 4094, 4095, 4096])?;
    element(rt, [7, 0, 2, 2, 4, 5, 6, 7, 8])?;
    element(rt, [4, 1, 2, 3, 4097, 0, 0, 0, 0])?;
    element(rt, [4, 1, 2, 0, 2, 9, 0, 0, 0])?;
    element(rt, [4, 1, 2, 3, 2, 0, 0, 0, 9])?;
    element(rt, [4, 1, 2, 3, 2, 0, 0, 0, 0])
}

// Each limit of EN, and one more.
fn ends(rt: &impl Print) -> io::Result<()> {
    end(rt, 0, 0)?;
    end(rt, 4096, 6144)?;
    end(rt, 4097, 0)?;
    end(rt, 0, 6145)
}

// A line of 30 bytes into the first bytes of a buffer, as many as there is room for.
fn write_front(rt: &impl Print, buffer: &mut [u8], room: usize) -> io::Result<()> {
    if room > buffer.len() {
        return Ok(());
    }
    let answer = write_vertex(-500000, -499999, -100001, &mut buffer[..room]);
    print_answer(rt, answer, buffer)
}

// The same among marked bytes, which stand where they stood.
fn among_marks(rt: &impl Print, room: usize) -> io::Result<()> {
    let mut buffer = [b'#'; 40];
    write_front(rt, &mut buffer, room)?;
    rt.write_all(&buffer)?;
    println!(rt)
}

// A vertex beyond the limits is RANGE where there is no room either; an element and EN go the same way.
fn no_room(rt: &impl Print) -> io::Result<()> {
    let mut buffer = [0u8; 1];
    let range = write_vertex(0, 0, 500001, &mut buffer);
    print_answer(rt, range, &buffer)?;
    let kind = write_element([0, 0, 0, 0, 0, 0, 0, 0, 0], &mut buffer);
    print_answer(rt, kind, &buffer)?;
    let many = write_end(4097, 6145, &mut buffer);
    print_answer(rt, many, &buffer)?;
    let room = write_end(4096, 6144, &mut buffer);
    print_answer(rt, room, &buffer)
}

// The page's JOIN, the longest line of a refusal, and that line in a buffer one byte too short.
fn refusals(rt: &impl Print) -> io::Result<()> {
    let join = Refusal {
        fault: Fault::Join,
        place: 2,
        second: 1,
    };
    print_refusal(rt, join)?;
    let longest = Refusal {
        fault: Fault::Join,
        place: 18446744073709551615,
        second: 10000000000000000000,
    };
    print_refusal(rt, longest)?;
    let mut buffer = [0u8; 47];
    let answer = write_refusal(longest, &mut buffer);
    print_answer(rt, answer, &buffer)
}

fn main(rt: HostRuntime) -> io::Result<()> {
    prism(&rt)?;
    coordinates(&rt)?;
    elements(&rt)?;
    ends(&rt)?;
    among_marks(&rt, 30)?;
    among_marks(&rt, 29)?;
    among_marks(&rt, 0)?;
    no_room(&rt)?;
    refusals(&rt)
}
