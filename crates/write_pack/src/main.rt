// Writes a pack: `write_pack <TEXT >PACK`. The text has one record a line: the grid, then tiles with their nodes, edges and vertices (README, "To write a pack").
// What can't be read or is refused is told on standard error with its line, and then nothing is written to standard output.
#![tactic(auto)]

mod build;
mod fault;
mod words;

use build::Build;
use fault::Fault;
use std::alloc::Global;
use std::io;
use std::io::{BufRead, BufReader, Read};

// A line has at most so many bytes, its end among them.
const LINE: u64 = 4096;

// The next line without its end, or false at the text's end.
fn next_line(source: &mut impl BufRead, line: &mut Vec<u8>) -> io::Result<bool> {
    line.clear();
    let read = source.take(LINE).read_until(b'\n', line)?;
    if line.last() == Some(&b'\n') {
        line.pop();
        return Ok(true);
    }
    if line.len() as u64 == LINE {
        return Err(io::Error::from(io::ErrorKind::InvalidData));
    }
    Ok(read != 0)
}

// The pack of a text.
fn packed(alloc: Global, source: &mut impl BufRead) -> Result<Vec<u8>, Fault> {
    let mut out = vec![in alloc; 0u8; build::PACK]?;
    let mut build = Build::new(alloc)?;
    let mut line = Vec::with_capacity(alloc, LINE as usize)?;
    for number in 1..=u32::MAX {
        match next_line(source, &mut line) {
            Ok(true) => build.line(number, &line, &mut out)?,
            Ok(false) => {
                let length = build.pack(number, &mut out)?;
                out.truncate(length as usize);
                return Ok(out);
            }
            Err(e) => {
                return Err(match e.kind() {
                    io::ErrorKind::OutOfMemory => Fault::OutOfMemory,
                    _ => Fault::Unread(number),
                })
            }
        }
    }
    Err(Fault::Refused(u32::MAX, refusal::Refusal::NoRoom))
}

// The pack of what the input holds, in reads of a buffer's length: std's own reader asks a pipe for a byte at a time.
fn read(alloc: Global, input: impl Read + Drop) -> Result<Vec<u8>, Fault> {
    match BufReader::new(alloc, input) {
        Ok(mut source) => packed(alloc, &mut source),
        Err(_) => Err(Fault::OutOfMemory),
    }
}

fn main(rt: HostRuntime) -> io::Result<()> {
    match read(rt.alloc(), rt.reader()) {
        Ok(pack) => match rt.write_all(&pack) {
            Ok(()) => Ok(()),
            Err(_) => eprintln!(rt; "write_pack: the pack can't be written"),
        },
        Err(fault) => eprintln!(rt; "write_pack: {fault}"),
    }
}
