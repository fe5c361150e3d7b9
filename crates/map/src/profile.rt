// The heights of the road ahead, under the map: a line, and below it metres ahead and rise in whole metres.
ghost use Rattle.std.specs.Prelude.{◌≤◌};

use crate::svg;
use std::io;

// The left edge, the width, the lowest line and the height of the drawing.
const LEFT: u64 = 2000;

const WIDE: u64 = 17000;

const BASE: u64 = 25200;

const HIGH: u64 = 3600;

// A road has 501 heights at most.
const MOST: usize = 501;

// The least and the greatest height, in decimetres.
#[derive(Clone, Copy)]
struct Heights {
    low: i16,
    high: i16,
}

fn widened(r: Heights, z: i16) -> Heights {
    Heights {
        low: r.low.min(z),
        high: r.high.max(z),
    }
}

// The heights' range, which holds 0.
fn range(heights: &[i16]) -> Heights {
    let mut r = Heights { low: 0, high: 0 };
    for &z in heights {
        r = widened(r, z);
    }
    r
}

// How many decimetres a height lies above another.
fn above(low: i16, z: i16) -> u64
    ensures { result ≤ 65535 }
{
    let n = num::cast::u16_of_i16(z);
    n.wrapping_sub(num::cast::u16_of_i16(low)) as u64
}

// Where sample i of so many lies.
fn across(i: usize, count: usize) -> u64 {
    if MOST < i || count < 2 {
        return LEFT;
    }
    LEFT + (i as u64) * WIDE / ((count - 1) as u64)
}

// Where a height of the range lies: at most 3,600 above the lowest line.
fn up(r: Heights, z: i16) -> u64 {
    BASE - above(r.low, z) * HIGH / (above(r.low, r.high) + 1) % (HIGH + 1)
}

// The line.
fn line(rt: &impl Print, heights: &[i16], r: Heights) -> io::Result<()> {
    svg::put(
        rt,
        b"<polyline class=\"line profile\" stroke-width=\"40\" points=\"",
    )?;
    for (i, &z) in heights.iter().enumerate() {
        svg::point(rt, across(i, heights.len()), up(r, z))?;
    }
    svg::put(rt, b"\"/>\n")
}

// One height in figures.
fn tick(rt: &impl Print, x: u64, metres: u64, z: i16) -> io::Result<()> {
    svg::field(rt, b"<text class=\"tick\" x=\"", x)?;
    svg::field(rt, b"\" y=\"25650\">", metres)?;
    svg::field(rt, b"</text><text class=\"tick\" x=\"", x)?;
    svg::put(rt, b"\" y=\"26050\">")?;
    rt.print(profile_text::whole_metres(z))?;
    svg::put(rt, b"</text>\n")
}

// Some nine heights in figures.
fn ticks(rt: &impl Print, heights: &[i16]) -> io::Result<()> {
    let count = heights.len();
    let step = count / 9 + 1;
    for i in 0..count.min(MOST + 1) {
        if i % step == 0 {
            tick(rt, across(i, count), (i as u64) * 20, heights[i])?;
        }
    }
    Ok(())
}

pub fn show(rt: &impl Print, heights: &[i16]) -> io::Result<()> {
    let r = range(heights);
    svg::put(
        rt,
        b"<text x=\"2000\" y=\"21200\">Road ahead of the last fix: metres ahead, and rise in metres</text>\n<path class=\"line\" stroke-width=\"12\" d=\"M2000 25200h17000M2000 21600v3600\"/>\n",
    )?;
    line(rt, heights, r)?;
    ticks(rt, heights)?;
    svg::put(
        rt,
        b"<text class=\"tick\" x=\"1300\" y=\"25650\">ahead</text><text class=\"tick\" x=\"1300\" y=\"26050\">rise</text>\n",
    )
}
