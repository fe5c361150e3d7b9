// The ways on that one tile has at a node.
ghost use Rattle.std.specs.Prelude.{◌≡◌};
ghost use Rattle.predict.specs.Consider as Consider;

use crate::outgoing::Leg;
use crate::{Arrival, Choice, Choices, Way};
use pack::TileKey;
use tile::Incident;

// A way on with its cost.
fn choice_of(a: Arrival, bytes: &[u8], key: TileKey, entry: Incident) -> Choice
    ensures { result ≡ Consider.choice_of a bytes.now key entry }
{
    let edge = tile::raw::edge(bytes, entry.edge);
    let forward = !entry.ends;
    let header = a.header;
    let leg = Leg {
        header,
        key,
        edge,
        forward,
    };
    let head = tile::read::head(bytes);
    let heading = crate::outgoing::outgoing_of(leg, bytes, head.lon_um);
    let bound = a.bound;
    let road = a.road;
    let way = Way {
        tile: key,
        edge: entry.edge,
        forward,
    };
    Choice {
        way,
        cost: crate::cost::cost_of(bound, road, heading, edge),
    }
}

// Whether an edge at the node is a way on: not the one the walk came by, no oneway against its direction, none followed before.
fn is_way_on(
    a: Arrival,
    visited: &[u32; crate::VISITED],
    bytes: &[u8],
    key: TileKey,
    entry: Incident,
) -> bool
    ensures { result ≡ Consider.is_way_on a visited.now bytes.now key entry }
{
    let way = a.way;
    if entry.edge == way.edge {
        let tile = way.tile;
        if cache::keys::same_key(key, tile) {
            return false;
        }
    }
    if entry.ends {
        if crate::spots::has_flag(bytes, entry.edge, tile::flag::ONEWAY) {
            return false;
        }
    }
    !crate::visits::was_visited(visited, key, entry.edge)
}

// The edges at a node of a tile, in order. A choice is written into its place, so that the choices are not copied from edge to edge; past the twelfth
// none is.
pub(crate) fn consider(
    c: Choices,
    a: Arrival,
    visited: &[u32; crate::VISITED],
    bytes: &[u8],
    key: TileKey,
    node: u16,
) -> Choices
    ensures { result ≡ Consider.consider c a visited.now bytes.now key node }
{
    let end = tile::raw::adjacency_end(bytes, node);
    let mut d = c;
    let mut i = tile::raw::adjacency_start(bytes, node as u32) as u32;
    while i < end {
        let entry = tile::raw::entry(bytes, i);
        i += 1;
        if 12 <= d.len {
            continue;
        }
        if !is_way_on(a, visited, bytes, key, entry) {
            continue;
        }
        let choice = choice_of(a, bytes, key, entry);
        let at = d.len;
        d.v[at] = choice;
        d.len = at + 1;
    }
    d
}
