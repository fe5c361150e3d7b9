// A view of a tile: a record that holds the tile's bytes, lent, beside the numbers of its head; the Rust's `Tile<'a>`.
//
// Thin functions make the view and take it apart; covered functions on slice and numbers, those of `tile` and `geo` and the module `on`, do the reading.
// An enum can't hold a view, so what may be refused is asked first, on the bytes: `tile::parse`, or the cache's lookup. Then the view is made of those
// bytes. Making it refuses nothing, and every reader is total: a view of any other bytes reads them as the core does, with 7 for an index past its
// count. `node_at`, `edge_point` and the module `through` go from bytes to a view and on to its answer; their callers meet no view.
#![tactic(auto)]

pub mod on;
pub mod through;

ghost use Rattle.std.specs.Prelude.{◌≡◌};
ghost use Rattle.tile.specs.Layout as Layout;
ghost use Rattle.tile.specs.Readers as Readers;
ghost use Rattle.geo.specs.Points as Points;
ghost use Rattle.cache.specs.Lookups as Lookups;
ghost use Rattle.view.specs.Views as Views;

use geo::Point;
use pack::{Header, TileKey};
use refusal::Refusal;
use tile::{Edge, Entries, Head, Incident, Node, TileId};

// Key, counts and micrometres per micro-degree stand in the head, as `tile::read::head` has it. The readers go by the bytes alone, so that no count can
// disagree with them.
#[derive(Clone, Copy)]
pub struct Tile<'a> {
    pub bytes: &'a [u8],
    pub head: Head,
}

impl<'a> Tile<'a> {
    // The view of bytes that `tile::parse` has accepted.
    pub fn view(bytes: &'a [u8]) -> Tile<'a>
        ensures { result ≡ Views.view_of bytes.entry }
    {
        Tile {
            bytes,
            head: tile::read::head(bytes),
        }
    }

    // The view of a run of the arena, by its first page and length as the cache's lookup answers them. Of a run that passes the arena's end, the part
    // that is there.
    pub fn run(arena: &'a [u8], first: usize, len: usize) -> Tile<'a>
        ensures { (result.bytes.now ≡ Lookups.run_bytes arena.now first len) × (result.head ≡ Layout.head_of (Lookups.run_bytes arena.now first len)) }
    {
        Tile::view(on::run(arena, first, len))
    }

    pub fn bytes(self) -> &'a [u8]
        ensures { result ≡ self.entry.bytes }
    {
        self.bytes
    }

    // Key, counts and micrometres per micro-degree of longitude.
    pub fn head(self) -> Head
        ensures { result ≡ self.entry.head }
    {
        self.head
    }

    pub fn id(self) -> TileId
        ensures { result ≡ Layout.id_of self.entry.bytes.now }
    {
        tile::read::id(self.bytes)
    }

    pub fn node_count(self) -> usize
        ensures { result ≡ Layout.nodes_of self.entry.bytes.now }
    {
        on::node_count(self.bytes)
    }

    pub fn edge_count(self) -> usize
        ensures { result ≡ Layout.edges_of self.entry.bytes.now }
    {
        on::edge_count(self.bytes)
    }

    pub fn node(self, index: u16) -> Result<Node, Refusal>
        ensures { result ≡ Readers.node self.entry.bytes.now index }
    {
        tile::read::node(self.bytes, index)
    }

    // The adjacency entries of a node.
    pub fn incident(self, node: u16) -> Result<Entries, Refusal>
        ensures { result ≡ Readers.incident self.entry.bytes.now node }
    {
        tile::read::incident(self.bytes, node)
    }

    // An edge at a node, by its place among all adjacency entries, and whether it ends there.
    pub fn incident_entry(self, entry: u32) -> Result<Incident, Refusal>
        ensures { result ≡ Readers.incident_entry self.entry.bytes.now entry }
    {
        tile::read::incident_entry(self.bytes, entry)
    }

    pub fn edge(self, index: u16) -> Result<Edge, Refusal>
        ensures { result ≡ Readers.edge self.entry.bytes.now index }
    {
        tile::read::edge(self.bytes, index)
    }

    // Point `index` of an edge, as a node.
    pub fn point(self, edge: Edge, index: usize) -> Result<Node, Refusal>
        ensures { result ≡ Readers.point self.entry.bytes.now edge index }
    {
        tile::read::point(self.bytes, edge, index)
    }

    // The node at exactly (x, y).
    pub fn node_at(self, x: u16, y: u16) -> Option<u16>
        ensures { result ≡ Readers.node_at self.entry.bytes.now x y }
    {
        tile::read::node_at(self.bytes, x, y)
    }

    // Point `index` of an edge, as a global point and elevation: geo.rs's function of that name.
    pub fn edge_point(
        self,
        header: Header,
        edge: Edge,
        index: usize,
    ) -> Result<(Point, i32), Refusal>
        ensures { result ≡ Points.edge_point header self.entry.bytes.now edge index }
    {
        on::edge_point(self.bytes, header, edge, index)
    }
}

// The node at exactly (x, y) of a tile's bytes; 4 where they are no tile of that key.
pub fn node_at(
    bytes: &[u8],
    key: TileKey,
    size: u32,
    x: u16,
    y: u16,
) -> Result<Option<u16>, Refusal>
    ensures { result ≡ Views.node_at bytes.now key size x y }
{
    tile::parse(bytes, key, size)?;
    Ok(through::node_at(bytes, x, y))
}

// Point `index` of an edge of the tile in a run of the arena, as a global point and elevation.
pub fn edge_point(
    arena: &[u8],
    first: usize,
    len: usize,
    header: Header,
    edge: Edge,
    index: usize,
) -> Result<(Point, i32), Refusal>
    ensures { result ≡ Points.edge_point header (Lookups.run_bytes arena.now first len) edge index }
{
    through::edge_point(on::run(arena, first, len), header, edge, index)
}
