// Worked examples of the pack writer: what it answers, and the output behind it. Each line has the answer (a length, or 13 or 14 with `!` before it) and
// then 640 bytes of output, which began as `.` everywhere, in hexadecimal.
#![tactic(auto)]

ghost use Rattle.std.specs.Prelude.{◌≤◌};

use refusal::Refusal;
use std::{fmt, io};
use writer::Grid;

const ROOM: usize = 640;

// An answer and the output behind it. `tile_cases` shows its own in the same way: a crate for what the two share would be longer than it.
#[derive(Clone, Copy)]
struct Shown<'a> {
    answer: Result<u32, Refusal>,
    out: &'a [u8],
}

impl fmt::Display for Shown<'_> {
    fn fmt<W: fmt::Write>(&self, f: &mut fmt::Formatter<W>) -> fmt::Result {
        match self.answer {
            Ok(length) => write!(f, " {length:03} ")?,
            Err(refusal) => {
                let number = refusal.number();
                write!(f, "!{number:03} ")?;
            }
        }
        for b in self.out {
            write!(f, "{b:02x}")?;
        }
        Ok(())
    }
}

// A pack into the first `room` bytes of the output.
fn show(rt: &impl Print, grid: Grid, tiles: &[u8], lengths: &[u32], room: usize) -> io::Result<()>
    requires { room ≤ 640 }
{
    let mut out = [b'.'; ROOM];
    let answer = writer::pack(grid, tiles, lengths, &mut out[..room]);
    let shown = Shown { answer, out: &out };
    println!(rt; "{shown}")
}

fn sized(south: i32, west: i32, size: u32, rows: u16, cols: u16) -> Grid {
    Grid {
        south,
        west,
        size,
        rows,
        cols,
    }
}

// Of the tiles two are good, (0, 1) and then (1, 0). The first comes again, then the first with a wrong sum, then (1, 1) with nodes out of order.
fn tiles(rt: &impl Print, all: &[u8; 184]) -> io::Result<()> {
    let usual = sized(-5, 7, 1000, 2, 2);
    // No tile; one; two, in row order and not.
    show(rt, usual, &[], &[], ROOM)?;
    show(rt, usual, &all[..32], &[32], ROOM)?;
    show(rt, usual, &all[..72], &[32, 40], ROOM)?;
    show(rt, usual, &all[32..104], &[40, 32], ROOM)?;
    // Just enough room, and a byte less.
    show(rt, usual, &all[..72], &[32, 40], 616)?;
    show(rt, usual, &all[..72], &[32, 40], 615)?;
    // A key twice; one outside the grid.
    show(rt, usual, &all[..104], &[32, 40, 32], ROOM)?;
    show(rt, sized(-5, 7, 1000, 1, 2), &all[..72], &[32, 40], ROOM)?;
    // Bytes that `Tile::parse` refuses; nodes out of order; a size that a node passes.
    show(rt, usual, &all[104..136], &[32], ROOM)?;
    show(rt, usual, &all[136..184], &[48], ROOM)?;
    show(rt, sized(-5, 7, 3, 2, 2), &all[32..72], &[40], ROOM)?;
    // Lengths that leave a byte over, and that want one more.
    show(rt, usual, &all[..32], &[31], ROOM)?;
    show(rt, usual, &all[..32], &[33], ROOM)
}

fn grids(rt: &impl Print, all: &[u8; 184]) -> io::Result<()> {
    // No rows; a grid past 360 degrees, and up to it.
    show(rt, sized(-5, 7, 1000, 0, 2), &[], &[], ROOM)?;
    show(rt, sized(359998001, 7, 1000, 2, 2), &[], &[], ROOM)?;
    show(rt, sized(359998000, -360000000, 1000, 2, 2), &[], &[], ROOM)?;
    // A directory that alone passes 32 bits; the same with a bad tile beside it.
    let wide = sized(0, 0, 1, 65535, 65535);
    show(rt, wide, &[], &[], ROOM)?;
    show(rt, wide, &all[104..136], &[32], ROOM)
}

fn main(rt: HostRuntime) -> io::Result<()> {
    let all =
        b"\x56\x54\x01\x00\x00\x00\x01\x00\x00\x00\x00\x00\x00\x00\x00\x00\x05\x00\x00\x00\x00\x00\x00\x00\xc0\x19\xa4\x43\x00\x00\x00\x00\x56\x54\x01\x00\x01\x00\x00\x00\x01\x00\x00\x00\x00\x00\x00\x00\x05\x00\x00\x00\x00\x00\x00\x00\xec\x05\xf4\x12\x00\x00\x00\x00\x03\x00\x04\x00\x05\x00\x00\x00\x56\x54\x01\x00\x00\x00\x01\x00\x00\x00\x00\x00\x00\x00\x00\x00\x05\x00\x00\x00\x00\x00\x00\x00\xc0\x19\xa4\x43\x00\x00\x00\x00\x56\x54\x01\x00\x00\x00\x01\x00\x00\x00\x00\x00\x00\x00\x00\x00\x06\x00\x00\x00\x00\x00\x00\x00\xc0\x19\xa4\x43\x00\x00\x00\x00\x56\x54\x01\x00\x01\x00\x01\x00\x02\x00\x00\x00\x00\x00\x00\x00\x05\x00\x00\x00\x00\x00\x00\x00\x32\xde\xa9\x12\x00\x00\x00\x00\x03\x00\x04\x00\x05\x00\x00\x00\x02\x00\x04\x00\x05\x00\x00\x00";
    tiles(&rt, all)?;
    grids(&rt, all)
}
