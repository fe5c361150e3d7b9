// One tile's road graph, read in place from its bytes: the Rust's tile.rs.
//
// | Part      | Record | Fields                                                                                                                              |
// | --------- | ------ | ----------------------------------------------------------------------------------------------------------------------------------- |
// | Header    | 32 B   | magic "VT", version 1, flags, row, col, nodes u16, edges u16, vertices u32, lon µm per µdeg u32, reserved, CRC-32 (itself taken as zero), reserved |
// | Nodes     | 8 B    | x, y (µdeg from the tile's south-west corner), z, first adjacency index                                                             |
// | Adjacency | 2 B    | edge << 1, plus 1 when the edge ends at the node                                                                                    |
// | Edges     | 16 B   | from node, to node, first vertex u32, vertices u16, class, flags, road group, reserved                                              |
// | Vertices  | 6 B    | x, y, z: the edge's interior points, from `from` to `to`                                                                            |
//
// Elevation `z` is fifths of a metre above -500 m. Nodes are sorted by (y, x), which `parse` tests. A node on the tile boundary continues in the neighbouring tile at the same point.
// The functions work on the tile's bytes and numbers. A record that does not end within the bytes is refused with 7 by its reader; in a head, and in the
// total functions of `raw`, a byte past the end counts as 0.
#![tactic(auto)]

pub mod check;
pub mod class;
pub mod flag;
pub mod raw;
pub mod read;

ghost use Rattle.std.specs.Prelude.{◌≡◌, not, eqb};
ghost use Rattle.std.specs.Int.Bits.{bit_and};
ghost use Rattle.tile.specs.Layout as Layout;
ghost use Rattle.tile.specs.Parse as Parse;

use pack::TileKey;
use refusal::Refusal;

pub const HEADER: usize = 32;
// `z` counts steps of 2 decimetres from -500 m: up to 12,607 m.
pub const Z_STEP_DM: i32 = 2;

pub const Z_OFFSET_DM: i32 = 5000;

#[derive(Clone, Copy, PartialEq, Eq, Debug)]
pub struct Node {
    pub x: u16,
    pub y: u16,
    pub z: u16,
}

#[derive(Clone, Copy, PartialEq, Eq, Debug)]
pub struct Edge {
    pub from: u16,
    pub to: u16,
    pub first_vertex: u32,
    pub vertices: u16,
    pub class: u8,
    pub flags: u8,
    pub group: u16,
}

impl Edge {
    pub fn has(self, flag: u8) -> bool
        ensures { result ≡ not (eqb (bit_and self.flags flag) 0) }
    {
        self.flags & flag != 0
    }
}

// One tile's bytes: where on the grid, and which version of them. An edge or point number holds only for the tile it was read from.
#[derive(Clone, Copy, PartialEq, Eq, Debug)]
pub struct TileId {
    pub key: TileKey,
    pub crc: u32,
    pub edges: u16,
}

// The fields of a tile's header.
#[derive(Clone, Copy, PartialEq, Eq, Debug)]
pub struct Head {
    pub key: TileKey,
    pub nodes: u16,
    pub edges: u16,
    pub vertices: u32,
    // Micrometres per micro-degree of longitude across this tile.
    pub lon_um: u32,
}

// An edge at a node, and whether it ends there.
#[derive(Clone, Copy, PartialEq, Eq, Debug)]
pub struct Incident {
    pub edge: u16,
    pub ends: bool,
}

// The adjacency entries of a node: places from `start` up to `end`.
#[derive(Clone, Copy, PartialEq, Eq, Debug)]
pub struct Entries {
    pub start: u32,
    pub end: u32,
}

// Bytes that a tile of these counts takes, exactly.
pub fn length(nodes: u32, edges: u32, vertices: u32) -> u64
    ensures { result ≡ Layout.length nodes edges vertices }
{
    32 + (nodes as u64) * 8 + (edges as u64) * 20 + (vertices as u64) * 6
}

// Check the CRC, the key, every count against the length, and every index, so that no reader of an accepted tile leaves its bytes; and the order of its
// nodes, so that `read::node_at` finds every node that is there.
#[tactic(auto, unfolding(crate::specs::Parse::parse, crate::specs::Parse::accepts))]
pub fn parse(bytes: &[u8], key: TileKey, size: u32) -> Result<Head, Refusal>
    ensures { result ≡ Parse.parse bytes.now key size }
{
    if !check::is_head(bytes) {
        return Err(Refusal::Corrupt);
    }
    if !check::is_sum(bytes) {
        return Err(Refusal::Corrupt);
    }
    if !check::is_key(bytes, key) {
        return Err(Refusal::Corrupt);
    }
    if !check::is_length(bytes) {
        return Err(Refusal::Corrupt);
    }
    if pack::bytes::u32_at(bytes, 16) == 0 {
        return Err(Refusal::Corrupt);
    }
    if !check::nodes_good(bytes, size) {
        return Err(Refusal::Corrupt);
    }
    if !check::edges_good(bytes) {
        return Err(Refusal::Corrupt);
    }
    if !check::entries_good(bytes) {
        return Err(Refusal::Corrupt);
    }
    Ok(read::head(bytes))
}
