// The clauses of `parse`, one function for each that is more than a comparison. Those about the records ask that the length is right: then every record
// is there and is read out of a slice of its own length, so that the compiler drops the tests at each read.
ghost use Rattle.std.specs.Prelude.{◌≡◌, true, ◌&&◌};
ghost use Rattle.tile.specs.Layout as Layout;
ghost use Rattle.tile.specs.Parse as Parse;

use pack::TileKey;

// Long enough for a head, its magic and its version.
pub(crate) fn is_head(bytes: &[u8]) -> bool
    ensures { result ≡ (Parse.is_long bytes.now && (Parse.is_magic bytes.now && Parse.is_version bytes.now)) }
{
    bytes.len() >= 32
        && pack::bytes::u16_at(bytes, 0) == 0x5456
        && pack::bytes::byte_at(bytes, 2) == 1
}

pub(crate) fn is_sum(bytes: &[u8]) -> bool
    ensures { result ≡ Parse.is_sum bytes.now }
{
    crc::crc32_skipping(bytes, 24) == pack::bytes::u32_at(bytes, 24)
}

pub fn is_key(bytes: &[u8], key: TileKey) -> bool
    ensures { result ≡ Parse.is_key bytes.now key }
{
    pack::bytes::u16_at(bytes, 4) == key.row && pack::bytes::u16_at(bytes, 6) == key.col
}

pub(crate) fn is_length(bytes: &[u8]) -> bool
    ensures { result ≡ Parse.is_length bytes.now }
{
    let nodes = pack::bytes::u16_at(bytes, 8) as u64;
    let edges = pack::bytes::u16_at(bytes, 10) as u64;
    let vertices = pack::bytes::u32_at(bytes, 12) as u64;
    32 + nodes * 8 + edges * 20 + vertices * 6 == bytes.len() as u64
}

// A node lies within the tile, its adjacency start within the entries. `node` is its record.
fn node_ok(node: &[u8], size: u32, last: u32) -> bool
    ensures { result ≡ Parse.node_fits node.now size last 0 }
{
    if size < pack::bytes::u16_at(node, 0) as u32 {
        return false;
    }
    if size < pack::bytes::u16_at(node, 2) as u32 {
        return false;
    }
    pack::bytes::u16_at(node, 6) as u32 <= last
}

// Every node lies within the tile, its adjacency start within the entries, and none lies below the node before it: by y, then x, compared as one number.
// No place lies below (0, 0).
fn all_nodes(bytes: &[u8], size: u32) -> bool
    requires { Parse.is_length bytes.now ≡ true }
    ensures { result ≡ (Parse.all_below (Parse.node_ok bytes.now size) (Layout.nodes_of bytes.now) && Parse.nodes_ordered bytes.now) }
{
    let nodes = pack::bytes::u16_at(bytes, 8) as u32;
    let last = (pack::bytes::u16_at(bytes, 10) as u32) * 2;
    let mut before: u32 = 0;
    for index in 0..nodes {
        let at = 32 + (index as usize) * 8;
        let node = &bytes[at..at + 8];
        if !node_ok(node, size, last) {
            return false;
        }
        let x = pack::bytes::u16_at(node, 0) as u32;
        let y = pack::bytes::u16_at(node, 2) as u32;
        let place = y * 65536 + x;
        if place < before {
            return false;
        }
        before = place;
    }
    true
}

// Any size is cut to 65,535.
pub(crate) fn nodes_good(bytes: &[u8], size: u32) -> bool
    requires { Parse.is_length bytes.now ≡ true }
    ensures { result ≡ (Parse.nodes_good bytes.now size && Parse.nodes_ordered bytes.now) }
{
    all_nodes(bytes, size.min(65535))
}

// An edge's two nodes are there, and its vertices. `edge` is its record.
#[tactic(auto, using(std::proofs::lemmas::Bool::Decides::nat_tests), unfolding(crate::specs::Parse::edge_fits))]
fn edge_ok(edge: &[u8], nodes: u16, vertices: u32) -> bool
    ensures { result ≡ Parse.edge_fits edge.now nodes vertices 0 }
{
    if nodes <= pack::bytes::u16_at(edge, 0) {
        return false;
    }
    if nodes <= pack::bytes::u16_at(edge, 2) {
        return false;
    }
    let first = pack::bytes::u32_at(edge, 4) as u64;
    let count = pack::bytes::u16_at(edge, 8) as u64;
    first + count <= vertices as u64
}

// Every edge's nodes and vertices are there.
pub(crate) fn edges_good(bytes: &[u8]) -> bool
    requires { Parse.is_length bytes.now ≡ true }
    ensures { result ≡ Parse.edges_good bytes.now }
{
    let nodes = pack::bytes::u16_at(bytes, 8);
    let edges = pack::bytes::u16_at(bytes, 10);
    let vertices = pack::bytes::u32_at(bytes, 12);
    let base = 32 + (nodes as usize) * 8 + (edges as usize) * 4;
    for index in 0..edges {
        let at = base + (index as usize) * 16;
        if !edge_ok(&bytes[at..at + 16], nodes, vertices) {
            return false;
        }
    }
    true
}

// Every adjacency entry names an edge.
pub(crate) fn entries_good(bytes: &[u8]) -> bool
    requires { Parse.is_length bytes.now ≡ true }
    ensures { result ≡ Parse.entries_good bytes.now }
{
    let nodes = pack::bytes::u16_at(bytes, 8) as usize;
    let edges = pack::bytes::u16_at(bytes, 10);
    let last = (edges as u32) * 2;
    let base = 32 + nodes * 8;
    for entry in 0..last {
        let at = base + (entry as usize) * 2;
        if edges <= pack::bytes::u16_at(&bytes[at..at + 2], 0) / 2 {
            return false;
        }
    }
    true
}
