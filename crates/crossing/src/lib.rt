// Does a leg cross a transect: document 02, request 4. A tile's segments are tried one after the other, in whole millionths of a degree.
#![tactic(auto)]

mod sides;

ghost use Rattle.std.specs.Prelude.{◌≡◌};
ghost use Rattle.tile.specs.Parse as Parse;
ghost use Rattle.crossing.specs.Crossing as Crossing;
ghost use Rattle.crossing.specs.Sides as Sides;

use geo::Point;
use pack::{Header, TileKey};
use refusal::Refusal;
use tile::Edge;

// A point counted from -360,000,000, so that its numbers are not negative: y is latitude, x longitude.
#[derive(Clone, Copy, PartialEq, Eq, Debug)]
struct Place {
    y: u64,
    x: u64,
}

#[tactic(auto, unfolding(tile::specs::Parse::parse))]
fn is_tile(bytes: &[u8], key: TileKey, size: u32) -> bool
    ensures { result ≡ Parse.accepts bytes.now key size }
{
    tile::parse(bytes, key, size).is_ok()
}

// Point `index` of an edge, as a place.
fn place_at(header: Header, key: TileKey, bytes: &[u8], edge: Edge, index: usize) -> Place
    requires { Sides.Passed header key }
    ensures { Sides.Placed header key bytes.now edge index result }
{
    let node = tile::raw::point(bytes, edge, index);
    sides::place(geo::flat::point(header, key, node))
}

// The first segment of an edge that meets the transect from a to b. Each point is read once.
fn in_edge(
    a: Place,
    b: Place,
    header: Header,
    key: TileKey,
    bytes: &[u8],
    edge: Edge,
) -> Option<u32>
    requires { Sides.Passed header key × (Sides.Small a × Sides.Small b) }
    ensures { Sides.InEdge a b header key bytes.now edge result }
{
    let mut from = place_at(header, key, bytes, edge, 0);
    for segment in 0..edge.vertices as u32 + 1 {
        let to = place_at(header, key, bytes, edge, (segment as usize) + 1);
        if sides::meets(a, b, from, to) {
            return Some(segment);
        }
        from = to;
    }
    None
}

fn in_tile(a: Place, b: Place, header: Header, key: TileKey, bytes: &[u8]) -> Option<(u16, u32)>
    requires { Sides.Passed header key × (Sides.Small a × Sides.Small b) }
    ensures { Sides.InTile a b header key bytes.now result }
{
    for number in 0..pack::bytes::u16_at(bytes, 10) {
        let edge = tile::raw::edge(bytes, number);
        if let Some(segment) = in_edge(a, b, header, key, bytes, edge) {
            return Some((number, segment));
        }
    }
    None
}

// 12 for the header, 8 for an end beyond 360 degrees, 9 for a key outside the grid, 4 for bytes that are no tile of that key.
#[tactic(auto, unfolding(crate::specs::Crossing::refusal))]
fn checked(
    first: Point,
    second: Point,
    header: Header,
    key: TileKey,
    bytes: &[u8],
) -> Result<(), Refusal>
    ensures { result ≡ Crossing.refusal first second header key bytes.now }
{
    if !header.rules() {
        return Err(Refusal::BadState);
    }
    if !pack::grid::is_point(first.lat, first.lon) {
        return Err(Refusal::OutOfRange);
    }
    if !pack::grid::is_point(second.lat, second.lon) {
        return Err(Refusal::OutOfRange);
    }
    if !pack::grid::in_grid(header, key) {
        return Err(Refusal::OutsideGrid);
    }
    if !is_tile(bytes, key, header.tile) {
        return Err(Refusal::Corrupt);
    }
    Ok(())
}

// A segment of the tile that meets the transect between two points, an edge and its segment, touching included, or none exactly where no segment does. Which of
// them is named is open. A segment joins the edge's points of its number and the next.
pub fn crossing(
    first: Point,
    second: Point,
    header: Header,
    key: TileKey,
    bytes: &[u8],
) -> Result<Option<(u16, u32)>, Refusal>
    ensures { Crossing.Crosses first second header key bytes.now result }
{
    checked(first, second, header, key, bytes)?;
    Ok(in_tile(
        sides::place(first),
        sides::place(second),
        header,
        key,
        bytes,
    ))
}
