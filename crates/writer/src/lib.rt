// Packs written: a tile made of its records, and a pack made of a grid and tiles.
#![tactic(auto)]

mod fields;
mod given;
mod pack_rules;
mod packs;
mod records;
mod tiles;

ghost use Rattle.std.specs.Prelude.{◌≡◌};
ghost use Rattle.writer.specs.TileWritten as TileWritten;
ghost use Rattle.writer.specs.PackWritten as PackWritten;

use pack::TileKey;
use refusal::Refusal;
use tiles::{Checked, Tiles};

// A pack's grid.
#[derive(Clone, Copy, PartialEq, Eq, Debug)]
pub struct Grid {
    // South-west corner and tile size, micro-degrees.
    pub south: i32,
    pub west: i32,
    pub size: u32,
    pub rows: u16,
    pub cols: u16,
}

// A tile made of its records, and how long it is. Nodes and vertices are three numbers each: x, y, z. Edges are seven: from, to, first vertex, vertices, class,
// flags, group. 13 for what a reader would refuse, then 14 for an output that is too short; both leave it as it was, and so is what lies past the tile.
pub fn tile(
    key: TileKey,
    size: u32,
    lon_um: u32,
    nodes: &[u16],
    edges: &[u32],
    vertices: &[u16],
    out: &mut [u8],
) -> Result<u32, Refusal>
    ensures value { result ≡ (TileWritten.tile (TileWritten.given key size lon_um nodes.now edges.now vertices.now) out.old).answer }
    ensures out_after { out.new ≡ (TileWritten.tile (TileWritten.given key size lon_um nodes.now edges.now vertices.now) out.old).out }
{
    if !given::good(size, lon_um, nodes, edges, vertices) {
        return Err(Refusal::BadValue);
    }
    let length = given::length_of(nodes.len(), edges.len(), vertices.len());
    if out.len() < length {
        return Err(Refusal::NoRoom);
    }
    records::fill(&mut out[..length], key, lon_um, nodes, edges, vertices);
    Ok(length as u32)
}

// A pack made of a grid and finished tiles, whose bytes stand one after the other in `tiles`, the length of each in `lengths`; and how long it is. 13 for what a
// reader would refuse, then 14 for an output that is too short or a total past 32 bits; both leave it as it was, and so is what lies past the pack.
pub fn pack(grid: Grid, tiles: &[u8], lengths: &[u32], out: &mut [u8]) -> Result<u32, Refusal>
    ensures value { result ≡ (PackWritten.pack (PackWritten.given grid.south grid.west grid.size grid.rows grid.cols tiles.now lengths.now) out.old).answer }
    ensures out_after { out.new ≡ (PackWritten.pack (PackWritten.given grid.south grid.west grid.size grid.rows grid.cols tiles.now lengths.now) out.old).out }
{
    let Some(tiles) = Tiles::cut(tiles, lengths) else {
        return Err(Refusal::BadValue);
    };
    if !pack_rules::pack_good(grid, &tiles) {
        return Err(Refusal::BadValue);
    }
    let data = 512 + (grid.rows as usize) * (grid.cols as usize) * 8;
    let total = data.saturating_add(tiles.bytes.len());
    if 0xffff_ffff < total {
        return Err(Refusal::NoRoom);
    }
    if out.len() < total {
        return Err(Refusal::NoRoom);
    }
    packs::fill(&Checked { grid, tiles }, &mut out[..total]);
    Ok(total as u32)
}
