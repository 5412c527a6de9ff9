//! Reads the C text on the standard input and writes it again from the program that was read, or says that it isn't C. The scripts under
//! checks/ and bench/ compare and time the reader and the writer with it.
#![tactic(auto)]

use c_emit::emit;
use c_reader::{ReadEnd, read};
use std::io;
use std::io::{BufWriter, Read, Write};

const LONGEST_TEXT: u64 = 1_073_741_824;

fn main(rt: HostRuntime) -> io::Result<()> {
    let alloc = rt.alloc();
    let mut text = Vec::new(alloc);
    rt.stdin().take(LONGEST_TEXT).read_to_end(&mut text)?;
    let mut out = BufWriter::new(alloc, rt.stdout())?;
    match read(alloc, &text) {
        Ok(program) => match emit(alloc, &program) {
            Ok(written) => out.write_all(&written)?,
            Err(_) => writeln!(out, "Memory")?,
        },
        Err(ReadEnd::NotC { line }) => writeln!(out, "not C, line {line}")?,
        Err(ReadEnd::Memory) => writeln!(out, "Memory")?,
    }
    out.flush()
}
