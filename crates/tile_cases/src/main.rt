// Worked examples of the tile writer: what it answers, and the output behind it. Each line has the answer (a length, or 13 or 14 with `!` before it) and
// then 128 bytes of output, which began as `.` everywhere, in hexadecimal.
#![tactic(auto)]

ghost use Rattle.std.specs.Prelude.{◌≤◌};

use pack::TileKey;
use refusal::Refusal;
use std::{fmt, io};

const ROOM: usize = 128;

// An answer and the output behind it. `pack_cases` shows its own in the same way: a crate for what the two share would be longer than it.
#[derive(Clone, Copy)]
struct Shown<'a> {
    answer: Result<u32, Refusal>,
    out: &'a [u8],
}

impl fmt::Display for Shown<'_> {
    fn fmt<W: fmt::Write>(&self, f: &mut fmt::Formatter<W>) -> fmt::Result {
        match self.answer {
            Ok(length) => write!(f, " {length:03} ")?,
            Err(refusal) => {
                let number = refusal.number();
                write!(f, "!{number:03} ")?;
            }
        }
        for b in self.out {
            write!(f, "{b:02x}")?;
        }
        Ok(())
    }
}

// A tile of the key (1, 2) and size 1,000 into the first `room` bytes of the output.
fn show(
    rt: &impl Print,
    lon_um: u32,
    nodes: &[u16],
    edges: &[u32],
    vertices: &[u16],
    room: usize,
) -> io::Result<()>
    requires { room ≤ 128 }
{
    let mut out = [b'.'; ROOM];
    let key = TileKey { row: 1, col: 2 };
    let answer = writer::tile(key, 1000, lon_um, nodes, edges, vertices, &mut out[..room]);
    let shown = Shown { answer, out: &out };
    println!(rt; "{shown}")
}

fn main(rt: HostRuntime) -> io::Result<()> {
    let two = [10u16, 20, 30, 5, 21, 31];
    let one_edge = [0u32, 1, 0, 1, 7, 4, 300];
    let turn = [100u16, 200, 65535];
    // Nothing in it; one node at the tile's far corner; past it; no lon_um.
    show(&rt, 5, &[], &[], &[], ROOM)?;
    show(&rt, 5, &[1000, 1000, 9], &[], &[], ROOM)?;
    show(&rt, 5, &[1000, 1001, 9], &[], &[], ROOM)?;
    show(&rt, 0, &[], &[], &[], ROOM)?;
    // Two nodes, an edge with one vertex; just enough room, and a byte less.
    show(&rt, 0x01020304, &two, &one_edge, &turn, ROOM)?;
    show(&rt, 0x01020304, &two, &one_edge, &turn, 74)?;
    show(&rt, 0x01020304, &two, &one_edge, &turn, 73)?;
    // The same nodes the other way round; twice the same node.
    show(&rt, 5, &[5, 21, 31, 10, 20, 30], &[], &[], ROOM)?;
    show(&rt, 5, &[10, 20, 30, 10, 20, 31], &[], &[], ROOM)?;
    // Back and forth, and from a node to itself: by node, then edge, start before end.
    show(
        &rt,
        5,
        &two,
        &[1, 0, 0, 0, 1, 2, 3, 1, 1, 0, 0, 4, 5, 6],
        &[],
        ROOM,
    )?;
    // A node that is not there; a vertex that is not there; a class that doesn't fit.
    show(&rt, 5, &two, &[0, 2, 0, 0, 1, 2, 3], &[], ROOM)?;
    show(&rt, 5, &two, &[0, 1, 1, 1, 1, 2, 3], &turn, ROOM)?;
    show(&rt, 5, &two, &[0, 1, 0, 0, 256, 2, 3], &[], ROOM)?;
    // Not whole; not whole and no room.
    show(&rt, 5, &[10, 20], &[], &[], ROOM)?;
    show(&rt, 5, &[10, 20], &[], &[], 0)
}
