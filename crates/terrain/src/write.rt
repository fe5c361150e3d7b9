// The writer for other languages: a tile made of its records, and a pack made of a grid and finished tiles. Each answers 0 with how long the result is, or the refusal's
// number and 0.
ghost use Rattle.std.specs.Prelude.{◌≡◌};
ghost use Rattle.writer.specs.TileWritten as TileWritten;
ghost use Rattle.writer.specs.PackWritten as PackWritten;
ghost use Rattle.terrain.specs.Records as Records;
ghost use Rattle.terrain.specs.Write.{written_out};

use crate::records::TerrainKey;
use refusal::Refusal;
use writer::Grid;

// How many bytes were written; or the refusal's number, and 0.
#[repr(C)]
#[derive(Clone, Copy)]
pub struct TerrainWritten {
    pub number: u32,
    pub length: u32,
}

fn written_out(answer: Result<u32, Refusal>) -> TerrainWritten
    ensures { result ≡ written_out answer }
{
    match answer {
        Ok(n) => TerrainWritten {
            number: 0,
            length: n,
        },
        Err(refusal) => TerrainWritten {
            number: refusal.number(),
            length: 0,
        },
    }
}

pub fn terrain_write_tile(
    key: TerrainKey,
    size: u32,
    lon_um: u32,
    nodes: &[u16],
    edges: &[u32],
    vertices: &[u16],
    out: &mut [u8],
) -> TerrainWritten
    ensures value { result ≡ written_out (TileWritten.tile (TileWritten.given (Records.key_of key) size lon_um nodes.now edges.now vertices.now) out.old).answer }
    ensures out_after { out.new ≡ (TileWritten.tile (TileWritten.given (Records.key_of key) size lon_um nodes.now edges.now vertices.now) out.old).out }
{
    let k = crate::records::key_of(key);
    written_out(writer::tile(k, size, lon_um, nodes, edges, vertices, out))
}

pub fn terrain_write_pack(
    south: i32,
    west: i32,
    size: u32,
    rows: u16,
    cols: u16,
    tiles: &[u8],
    lengths: &[u32],
    out: &mut [u8],
) -> TerrainWritten
    ensures value { result ≡ written_out (PackWritten.pack (PackWritten.given south west size rows cols tiles.now lengths.now) out.old).answer }
    ensures out_after { out.new ≡ (PackWritten.pack (PackWritten.given south west size rows cols tiles.now lengths.now) out.old).out }
{
    let grid = Grid {
        south,
        west,
        size,
        rows,
        cols,
    };
    written_out(writer::pack(grid, tiles, lengths, out))
}
