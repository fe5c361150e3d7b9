// The readers of a tile's bytes. An index past its count is 7, and so is a record that does not end within the bytes.
ghost use Rattle.std.specs.Prelude.{◌≡◌};
ghost use Rattle.tile.specs.Layout as Layout;
ghost use Rattle.tile.specs.Readers as Readers;

use crate::{Edge, Entries, Head, Incident, Node, TileId, raw};
use pack::TileKey;
use refusal::Refusal;

// The fields of a tile's header, as they stand.
pub fn head(bytes: &[u8]) -> Head
    ensures { result ≡ Layout.head_of bytes.now }
{
    Head {
        key: TileKey {
            row: pack::bytes::u16_at(bytes, 4),
            col: pack::bytes::u16_at(bytes, 6),
        },
        nodes: pack::bytes::u16_at(bytes, 8),
        edges: pack::bytes::u16_at(bytes, 10),
        vertices: pack::bytes::u32_at(bytes, 12),
        lon_um: pack::bytes::u32_at(bytes, 16),
    }
}

pub fn id(bytes: &[u8]) -> TileId
    ensures { result ≡ Layout.id_of bytes.now }
{
    TileId {
        key: TileKey {
            row: pack::bytes::u16_at(bytes, 4),
            col: pack::bytes::u16_at(bytes, 6),
        },
        crc: pack::bytes::u32_at(bytes, 24),
        edges: pack::bytes::u16_at(bytes, 10),
    }
}

#[tactic(auto, unfolding(crate::specs::Readers::node))]
pub fn node(bytes: &[u8], index: u16) -> Result<Node, Refusal>
    ensures { result ≡ Readers.node bytes.now index }
{
    if raw::has_node(bytes, index as u32) {
        return Ok(raw::node(bytes, index));
    }
    Err(Refusal::PastTile)
}

#[tactic(auto, unfolding(crate::specs::Readers::edge))]
pub fn edge(bytes: &[u8], index: u16) -> Result<Edge, Refusal>
    ensures { result ≡ Readers.edge bytes.now index }
{
    if raw::has_edge(bytes, index) {
        return Ok(raw::edge(bytes, index));
    }
    Err(Refusal::PastTile)
}

// The adjacency entries of a node. Starts may fall: then there are none.
#[tactic(auto, using(std::proofs::lemmas::Bool::Decides::nat_tests), unfolding(crate::specs::Readers::incident))]
pub fn incident(bytes: &[u8], node: u16) -> Result<Entries, Refusal>
    ensures { result ≡ Readers.incident bytes.now node }
{
    if !raw::has_node(bytes, raw::last_read(bytes, node)) {
        return Err(Refusal::PastTile);
    }
    let start = raw::adjacency_start(bytes, node as u32) as u32;
    let end = raw::adjacency_end(bytes, node);
    Ok(Entries {
        start,
        end: end.max(start),
    })
}

// An edge at a node, by its place among all adjacency entries.
#[tactic(auto, unfolding(crate::specs::Readers::incident_entry))]
pub fn incident_entry(bytes: &[u8], entry: u32) -> Result<Incident, Refusal>
    ensures { result ≡ Readers.incident_entry bytes.now entry }
{
    if raw::has_entry(bytes, entry) {
        return Ok(raw::entry(bytes, entry));
    }
    Err(Refusal::PastTile)
}

// Point `index` of an edge from its `from` node (0) to its `to` node (`points(edge) - 1` and above), as a node. Only what is read is refused.
#[tactic(auto, unfolding(crate::specs::Readers::point))]
pub fn point(bytes: &[u8], edge: Edge, index: usize) -> Result<Node, Refusal>
    ensures { result ≡ Readers.point bytes.now edge index }
{
    if raw::has_point(bytes, edge, index) {
        return Ok(raw::point(bytes, edge, index));
    }
    Err(Refusal::PastTile)
}

pub fn points(edge: Edge) -> usize
    ensures { result ≡ Layout.points edge }
{
    edge.vertices as usize + 2
}

// The node at exactly (x, y), by binary search over the (y, x) order of the nodes that are there.
pub fn node_at(bytes: &[u8], x: u16, y: u16) -> Option<u16>
    ensures { result ≡ Readers.node_at bytes.now x y }
{
    let mut low: u32 = 0;
    let mut high = raw::nodes_there(bytes) as u32;
    while low < high {
        let middle = (low + high) / 2;
        let n = raw::node(bytes, middle as u16);
        if raw::before(n.y, n.x, y, x) {
            low = middle + 1;
        } else if raw::before(y, x, n.y, n.x) {
            high = middle;
        } else {
            return Some(middle as u16);
        }
    }
    None
}
