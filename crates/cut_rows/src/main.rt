// Prints the table of the hexahedron's cuts as the library reads it: a line for each of the 64 rows, its 24 places apart by spaces.
#![tactic(auto)]

use places::row_place;
use std::io;

fn print_place(rt: &impl Print, row: usize, at: usize) -> io::Result<()> {
    let place = row_place(row, at);
    if 0 < at {
        print!(rt; " ")?;
    }
    print!(rt; "{}", place.0)
}

fn print_row(rt: &impl Print, row: usize) -> io::Result<()> {
    for at in 0..24 {
        print_place(rt, row, at)?;
    }
    println!(rt)
}

fn main(rt: HostRuntime) -> io::Result<()> {
    for row in 0..64 {
        print_row(&rt, row)?;
    }
    Ok(())
}
