// Readers of a tile's bytes, each through a view that it makes of them: for callers that hold bytes and meet no view, as the functions for other languages.
ghost use Rattle.std.specs.Prelude.{◌≡◌};
ghost use Rattle.tile.specs.Layout as Layout;
ghost use Rattle.tile.specs.Readers as Readers;
ghost use Rattle.geo.specs.Points as Points;

use crate::Tile;
use geo::Point;
use pack::Header;
use refusal::Refusal;
use tile::{Edge, Entries, Incident, Node};

pub fn node_count(bytes: &[u8]) -> usize
    ensures { result ≡ Layout.nodes_of bytes.now }
{
    Tile::view(bytes).node_count()
}

pub fn edge_count(bytes: &[u8]) -> usize
    ensures { result ≡ Layout.edges_of bytes.now }
{
    Tile::view(bytes).edge_count()
}

pub fn node(bytes: &[u8], index: u16) -> Result<Node, Refusal>
    ensures { result ≡ Readers.node bytes.now index }
{
    Tile::view(bytes).node(index)
}

pub fn incident(bytes: &[u8], node: u16) -> Result<Entries, Refusal>
    ensures { result ≡ Readers.incident bytes.now node }
{
    Tile::view(bytes).incident(node)
}

pub fn incident_entry(bytes: &[u8], entry: u32) -> Result<Incident, Refusal>
    ensures { result ≡ Readers.incident_entry bytes.now entry }
{
    Tile::view(bytes).incident_entry(entry)
}

pub fn edge(bytes: &[u8], index: u16) -> Result<Edge, Refusal>
    ensures { result ≡ Readers.edge bytes.now index }
{
    Tile::view(bytes).edge(index)
}

pub fn point(bytes: &[u8], edge: Edge, index: usize) -> Result<Node, Refusal>
    ensures { result ≡ Readers.point bytes.now edge index }
{
    Tile::view(bytes).point(edge, index)
}

// How many points an edge has. Its record says it, so no view is made.
pub fn points(edge: Edge) -> usize
    ensures { result ≡ Layout.points edge }
{
    tile::read::points(edge)
}

pub fn node_at(bytes: &[u8], x: u16, y: u16) -> Option<u16>
    ensures { result ≡ Readers.node_at bytes.now x y }
{
    Tile::view(bytes).node_at(x, y)
}

pub fn edge_point(
    bytes: &[u8],
    header: Header,
    edge: Edge,
    index: usize,
) -> Result<(Point, i32), Refusal>
    ensures { result ≡ Points.edge_point header bytes.now edge index }
{
    Tile::view(bytes).edge_point(header, edge, index)
}
