// The tiles that a search around a fix needs: its own, and each neighbour within reach of the shared boundary.
ghost use Rattle.std.specs.Prelude.{◌≡◌, ℤ};
ghost use Rattle.matcher.specs.Near as Near;

use crate::{NearKey, NearKeys};
use geo::Point;
use pack::{Header, TileKey};

pub fn no_keys() -> NearKeys
    ensures { result ≡ Near.no_keys }
{
    let none = NearKey { key: None };
    let keys = [none; 4];
    NearKeys { keys, len: 0 }
}

// Whether a key is among those so far.
fn has(n: NearKeys, key: TileKey) -> bool
    ensures { result ≡ Near.has n key }
{
    n.keys
        .iter()
        .any(|place| cache::keys::holds(place.key, key))
}

// A key behind those so far, if there is room.
fn push(n: NearKeys, key: TileKey) -> NearKeys
    ensures { result ≡ Near.push n key }
{
    if 4 <= n.len {
        return n;
    }
    let mut d = n;
    let at = d.len;
    d.keys[at] = NearKey { key: Some(key) };
    d.len = at + 1;
    d
}

// A row and a column behind those so far, where they lie in the grid and are new.
fn add(n: NearKeys, header: Header, row: i64, col: i64) -> NearKeys
    ensures { result ≡ Near.add n header row col }
{
    match pack::grid::checked_of(header, row, col) {
        Some(k) => {
            if has(n, k) {
                return n;
            }
            push(n, k)
        }
        None => n,
    }
}

// Which neighbour is within reach: the one before, the one after, or none.
fn side(at: i32, from: i32, size: u32, reach: i64) -> i64
    ensures { result ≡ Near.side at from size reach }
{
    let into = (at as i64) - (from as i64);
    if into < reach {
        return -1;
    }
    if (size as i64) - into < reach {
        return 1;
    }
    0
}

// The tiles around a point of the tile `key`: it, its neighbour by row, by column, and the one across the corner.
fn around(header: Header, fix: Point, key: TileKey) -> NearKeys
    ensures { result ≡ Near.around header fix key }
{
    let corner = pack::grid::corner_of(header, key);
    let down = side(fix.lat, corner.south, header.tile, 359);
    let across = side(fix.lon, corner.west, header.tile, 718);
    let row = key.row as i64;
    let col = key.col as i64;
    let a = add(no_keys(), header, row, col);
    let b = add(a, header, row + down, col);
    let c = add(b, header, row, col + across);
    add(c, header, row + down, col + across)
}

// The tiles around a point, none where it lies off the grid.
pub fn near_of(header: Header, fix: Point) -> NearKeys
    ensures { result ≡ Near.near_of header fix }
{
    match pack::grid::key_of(header, fix.lat, fix.lon) {
        Some(k) => around(header, fix, k),
        None => no_keys(),
    }
}
