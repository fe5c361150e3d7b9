// Reads heights as signed 16-bit little-endian decimetres from standard input, and prints metres ahead and rise in whole metres.
#![tactic(auto)]

use profile_text::ROOM;
use std::io;

// More than any good input has: what is longer is bad input, however long it is.
const MOST: usize = 4096;

fn main(rt: HostRuntime) -> io::Result<()> {
    let mut input = [0u8; MOST];
    let n = reading::read_full(&mut rt.reader(), &mut input)?;
    let mut out = [0u8; ROOM];
    let len = profile_text::text(&input[..n], &mut out);
    rt.write_all(&out[..len])
}
