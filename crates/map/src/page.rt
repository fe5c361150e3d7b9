// Where the grid lies on the page, an upright A4 in hundredths of a millimetre.
ghost use Rattle.std.specs.Prelude.{◌≡◌, ◌*◌, ◌≤◌, min};
ghost use Rattle.map.specs.Page as Page;

use pack::{Header, TileKey};
use tile::Node;

// The left and the upper margin.
pub const LEFT: u64 = 2000;

const TOP: u64 = 2600;

const LAT_UM: u32 = 111195;

// Micrometres of a micro-degree of longitude, one less than the micrometres of ground that a unit of the page has, and where the grid's lower edge lies.
#[derive(Clone, Copy)]
pub struct Frame {
    pub lon_um: u32,
    pub over: u32,
    pub bottom: u64,
}

// A number held to 32 bits.
pub fn short(n: u64) -> u32
    ensures { result ≡ min n Page.reach }
{
    u32::try_from(n).unwrap_or(u32::MAX)
}

// A product, which 64 bits hold with some room.
fn product(a: u32, b: u32) -> u64
    ensures value { result ≡ a * b }
    ensures upper_bound { result ≤ 18446744065119617025 }
{
    (a as u64) * (b as u64)
}

// Micrometres of ground along so many micro-degrees, in units of the page.
fn units(um: u32, over: u32, degrees: u64) -> u64
    ensures value { result ≡ Page.units um over degrees }
    ensures upper_bound { result ≤ 18446744065119617025 }
{
    product(short(degrees), um) / ((over as u64) + 1)
}

// Where so many micro-degrees east of the grid's corner lie.
pub fn across(f: Frame, east: u64) -> u64
    ensures { result ≡ Page.across f.lon_um f.over east }
{
    LEFT + units(f.lon_um, f.over, east)
}

// Where so many micro-degrees north of it lie.
pub fn down(f: Frame, north: u64) -> u64
    ensures { result ≡ Page.down f.bottom f.over north }
{
    f.bottom.saturating_sub(units(LAT_UM, f.over, north))
}

// Micro-degrees from the grid's corner to a place of a tile: its row or column, the tile's size, and the place within.
fn along(tiles: u16, size: u32, more: u16) -> u64 {
    product(tiles as u32, size) + (more as u64)
}

pub fn node_x(h: Header, f: Frame, key: TileKey, n: Node) -> u64 {
    across(f, along(key.col, h.tile, n.x))
}

pub fn node_y(h: Header, f: Frame, key: TileKey, n: Node) -> u64 {
    down(f, along(key.row, h.tile, n.y))
}

// How far a lies above b, which is not above it.
pub fn past(a: i32, b: i32) -> u64 {
    a.abs_diff(b) as u64
}

// A unit of the page has as much ground that the grid takes no more than it may, either way.
fn over_of(east: u64, north: u64, lon_um: u32) -> u32 {
    let wide = units(lon_um, 16999, east);
    let high = units(LAT_UM, 16999, north);
    short(wide.max(high))
}

// The middle of a grid, for the scale of its longitudes.
fn middle(h: Header) -> i32 {
    let half = along(h.rows, h.tile, 0) / 2;
    pack::bytes::signed_32(std::num::wrapping_add_u32(num::cast::u32_of_i32(h.south), short(half)))
}

// The frame of a pack's grid.
pub fn frame_of(h: Header) -> Frame {
    let east = along(h.cols, h.tile, 0);
    let north = along(h.rows, h.tile, 0);
    let lon_um = angle::lon_scale_um(middle(h));
    let over = over_of(east, north, lon_um);
    let high = units(LAT_UM, over, north);
    Frame {
        lon_um,
        over,
        bottom: TOP + high,
    }
}

// The longest of 1, 2 and 5 with zeros behind it that is no more, from 1 on.
pub fn round_below(most: u64) -> u64 {
    let mut m: u64 = 1;
    for _ in 0..12 {
        if most / 10 < m {
            break;
        }
        m = m * 10;
    }
    if most / 5 >= m {
        return m * 5;
    }
    if most / 2 >= m {
        return m * 2;
    }
    m
}

// Metres of ground that a third of the map's width shows, and units of the page along so many metres.
pub fn third(f: Frame) -> u64 {
    6000 * ((f.over as u64) + 1) / 1000000
}

pub fn length(f: Frame, metres: u64) -> u64 {
    if 0xffff_ffff < metres {
        return 0;
    }
    metres * 1000000 / ((f.over as u64) + 1)
}

// How many places the grid has.
pub fn places(h: Header) -> u64 {
    product(h.rows as u32, h.cols as u32)
}
