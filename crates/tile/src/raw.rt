// The records of a tile's bytes, total for every index: what the public readers answer once an index has passed, and whether it does. A byte past the
// end counts as 0.
ghost use Rattle.std.specs.Prelude.{◌≡◌, ◌+◌, ◌^◌, ◌<◌};
ghost use Rattle.tile.specs.Layout as Layout;
ghost use Rattle.tile.specs.Readers as Readers;

use crate::{Edge, Incident, Node};

// x, y and z at a place of the bytes: a node's or a vertex's.
#[tactic(auto, using(std::proofs::lemmas::Bool::Decides::nat_tests), unfolding(crate::specs::Layout::place_at))]
fn place(bytes: &[u8], at: usize) -> Node
    requires { at + 4 < 2 ^ 64 }
    ensures { result ≡ Layout.place_at bytes.now at }
{
    Node {
        x: pack::bytes::u16_at(bytes, at),
        y: pack::bytes::u16_at(bytes, at + 2),
        z: pack::bytes::u16_at(bytes, at + 4),
    }
}

pub fn node(bytes: &[u8], index: u16) -> Node
    ensures { result ≡ Layout.node_of bytes.now index }
{
    place(bytes, 32 + (index as usize) * 8)
}

// The first adjacency entry of a node.
pub fn adjacency_start(bytes: &[u8], index: u32) -> u16
    ensures { result ≡ Layout.adjacency_start bytes.now index }
{
    pack::bytes::u16_at(bytes, 32 + (index as usize) * 8 + 6)
}

// Where a node's entries end: where the next node's begin, and for the last node behind all of them.
pub fn adjacency_end(bytes: &[u8], index: u16) -> u32
    ensures { result ≡ Layout.adjacency_end bytes.now index }
{
    let next = (index as u32) + 1;
    if next < pack::bytes::u16_at(bytes, 8) as u32 {
        return adjacency_start(bytes, next) as u32;
    }
    (pack::bytes::u16_at(bytes, 10) as u32) * 2
}

pub fn entry(bytes: &[u8], entry: u32) -> Incident
    ensures { result ≡ Layout.entry_of bytes.now entry }
{
    let nodes = pack::bytes::u16_at(bytes, 8) as usize;
    let value = pack::bytes::u16_at(bytes, 32 + nodes * 8 + (entry as usize) * 2);
    Incident {
        edge: value / 2,
        ends: value % 2 == 1,
    }
}

#[tactic(auto, using(std::proofs::lemmas::Bool::Decides::nat_tests), unfolding(crate::specs::Layout::edge_of))]
pub fn edge(bytes: &[u8], index: u16) -> Edge
    ensures { result ≡ Layout.edge_of bytes.now index }
{
    let nodes = pack::bytes::u16_at(bytes, 8) as usize;
    let edges = pack::bytes::u16_at(bytes, 10) as usize;
    let at = 32 + nodes * 8 + edges * 4 + (index as usize) * 16;
    Edge {
        from: pack::bytes::u16_at(bytes, at),
        to: pack::bytes::u16_at(bytes, at + 2),
        first_vertex: pack::bytes::u32_at(bytes, at + 4),
        vertices: pack::bytes::u16_at(bytes, at + 8),
        class: pack::bytes::byte_at(bytes, at + 10),
        flags: pack::bytes::byte_at(bytes, at + 11),
        group: pack::bytes::u16_at(bytes, at + 12),
    }
}

fn vertex(bytes: &[u8], number: u64) -> Node
    requires { number < 2 ^ 33 }
    ensures { result ≡ Layout.vertex_of bytes.now number }
{
    let nodes = pack::bytes::u16_at(bytes, 8) as usize;
    let edges = pack::bytes::u16_at(bytes, 10) as usize;
    place(bytes, 32 + nodes * 8 + edges * 20 + (number as usize) * 6)
}

// Whether the record of `size` bytes at `at` ends within the bytes.
fn inside(bytes: &[u8], at: usize, size: usize) -> bool
    ensures { result ≡ Readers.inside bytes.now at size }
{
    if bytes.len() < size {
        return false;
    }
    at <= bytes.len() - size
}

// Whether a node's record is there: below the count, and within the bytes.
pub fn has_node(bytes: &[u8], index: u32) -> bool
    ensures { result ≡ Readers.has_node bytes.now index }
{
    if index < pack::bytes::u16_at(bytes, 8) as u32 {
        return inside(bytes, 32 + (index as usize) * 8, 8);
    }
    false
}

pub fn has_edge(bytes: &[u8], index: u16) -> bool
    ensures { result ≡ Readers.has_edge bytes.now index }
{
    let edges = pack::bytes::u16_at(bytes, 10);
    if index < edges {
        let nodes = pack::bytes::u16_at(bytes, 8) as usize;
        return inside(
            bytes,
            32 + nodes * 8 + (edges as usize) * 4 + (index as usize) * 16,
            16,
        );
    }
    false
}

pub fn has_entry(bytes: &[u8], entry: u32) -> bool
    ensures { result ≡ Readers.has_entry bytes.now entry }
{
    if entry < (pack::bytes::u16_at(bytes, 10) as u32) * 2 {
        let nodes = pack::bytes::u16_at(bytes, 8) as usize;
        return inside(bytes, 32 + nodes * 8 + (entry as usize) * 2, 2);
    }
    false
}

fn has_vertex(bytes: &[u8], number: u64) -> bool
    ensures { result ≡ Readers.has_vertex bytes.now number }
{
    if number < pack::bytes::u32_at(bytes, 12) as u64 {
        let nodes = pack::bytes::u16_at(bytes, 8) as usize;
        let edges = pack::bytes::u16_at(bytes, 10) as usize;
        return inside(
            bytes,
            32 + nodes * 8 + edges * 20 + (number as usize) * 6,
            6,
        );
    }
    false
}

// The node whose record is read last for a node's entries: the next one where there is one.
pub fn last_read(bytes: &[u8], index: u16) -> u32
    ensures { result ≡ Readers.last_read bytes.now index }
{
    let next = (index as u32) + 1;
    if next < pack::bytes::u16_at(bytes, 8) as u32 {
        return next;
    }
    index as u32
}

// How many nodes are there: those of the count whose records end within the bytes.
pub fn nodes_there(bytes: &[u8]) -> u16
    ensures { result ≡ Readers.nodes_there bytes.now }
{
    let nodes = pack::bytes::u16_at(bytes, 8);
    if bytes.len() < 32 {
        return 0;
    }
    let room = (bytes.len() - 32) / 8;
    if room < nodes as usize {
        return room as u16;
    }
    nodes
}

// Whether what a point number reads is there.
#[tactic(auto, using(std::proofs::lemmas::Bool::Decides::nat_tests), unfolding(crate::specs::Readers::has_point))]
pub fn has_point(bytes: &[u8], edge: Edge, index: usize) -> bool
    ensures { result ≡ Readers.has_point bytes.now edge index }
{
    if index == 0 {
        return has_node(bytes, edge.from as u32);
    }
    if (edge.vertices as usize) < index {
        return has_node(bytes, edge.to as u32);
    }
    has_vertex(bytes, (edge.first_vertex as u64) + (index as u64) - 1)
}

// Point `index` of an edge; past its vertices the end node.
#[tactic(auto, using(std::proofs::lemmas::Bool::Decides::nat_tests), unfolding(crate::specs::Layout::point_of))]
pub fn point(bytes: &[u8], edge: Edge, index: usize) -> Node
    ensures { result ≡ Layout.point_of bytes.now edge index }
{
    if index == 0 {
        return node(bytes, edge.from);
    }
    if (edge.vertices as usize) < index {
        return node(bytes, edge.to);
    }
    vertex(bytes, (edge.first_vertex as u64) + (index as u64) - 1)
}

// (ay, ax) comes before (by, bx).
pub fn before(ay: u16, ax: u16, by: u16, bx: u16) -> bool
    ensures { result ≡ Readers.before ay ax by bx }
{
    (ay, ax) < (by, bx)
}
