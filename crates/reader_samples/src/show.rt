// A sample: what reading a file says, and what it changes in tables that hold canaries.
use faults::Refusal;
use std::fmt::Display;
use std::io;
use text::{ReadCounts, read_mesh};

// Numbers that no file can store.
const VERTEX_CANARY: i32 = -7777777;

const ELEMENT_CANARY: u16 = 65535;

// The rooms of tables for as many vertices and elements as a file may have, in figures: a sample must not follow the constants that it tests.
const VERTEX_ROOM: usize = 12288;

const ELEMENT_ROOM: usize = 9216;

// How many changed numbers are shown one by one.
const SHOWN: usize = 18;

fn say_answer(rt: &impl Print, answer: Result<ReadCounts, Refusal>) -> io::Result<()> {
    match answer {
        Ok(counts) => print!(rt; ": DONE {} {}", counts.vertices, counts.elements),
        Err(refusal) => print!(rt; ": {refusal}"),
    }
}

// How many numbers of a table are no canary.
fn changed<T: PartialEq>(table: &[T], canary: &T) -> usize {
    table.iter().filter(|number| *number != canary).count()
}

// The numbers of a table that are no canary, where they are few.
fn say_changed<T: PartialEq + Display>(rt: &impl Print, table: &[T], canary: &T) -> io::Result<()> {
    let n = changed(table, canary);
    if 0 < n && n <= SHOWN {
        print!(rt; ";")?;
        for number in table {
            if number != canary {
                print!(rt; " {number}")?;
            }
        }
    }
    Ok(())
}

fn say_tables(rt: &impl Print, vertices: &[i32], elements: &[u16]) -> io::Result<()> {
    let v = changed(vertices, &VERTEX_CANARY);
    let e = changed(elements, &ELEMENT_CANARY);
    print!(rt; "; changed {v} {e}")?;
    say_changed(rt, vertices, &VERTEX_CANARY)?;
    say_changed(rt, elements, &ELEMENT_CANARY)?;
    println!(rt)
}

// Reads a file into tables of canaries, of which only the first `v` and `e` numbers are lent; where a table has fewer, nothing is read.
pub fn sample_in(rt: &impl Print, name: &[u8], file: &[u8], v: usize, e: usize) -> io::Result<()> {
    let mut vertices = [VERTEX_CANARY; VERTEX_ROOM];
    let mut elements = [ELEMENT_CANARY; ELEMENT_ROOM];
    rt.write_all(name)?;
    if VERTEX_ROOM < v || ELEMENT_ROOM < e {
        return Ok(());
    }
    let answer = read_mesh(file, &mut vertices[..v], &mut elements[..e]);
    say_answer(rt, answer)?;
    say_tables(rt, &vertices, &elements)
}

// Reads a file into tables that are large enough for any.
pub fn sample(rt: &impl Print, name: &[u8], file: &[u8]) -> io::Result<()> {
    sample_in(rt, name, file, VERTEX_ROOM, ELEMENT_ROOM)
}
