// The writer.
ghost use Rattle.std.specs.Prelude.{◌≡◌};
ghost use Rattle.writer.specs.TileWritten as TileWritten;
ghost use Rattle.writer.specs.PackWritten as PackWritten;
ghost use Rattle.terrain.specs.Records as Records;
ghost use Rattle.terrain.specs.Write.{written_out};

use terrain::records::TerrainKey;
use terrain::write::TerrainWritten;

#[unsafe(no_mangle)]
pub extern "C" fn terrain_write_tile(
    key: TerrainKey,
    size: u32,
    lon_um: u32,
    nodes: &[u16],
    edges: &[u32],
    vertices: &[u16],
    out: &mut [u8],
) -> TerrainWritten
    ensures value { result ≡ written_out (TileWritten.tile (TileWritten.given (Records.key_of key) size lon_um nodes.now edges.now vertices.now) out.old).answer }
    ensures out_after { out.new ≡ (TileWritten.tile (TileWritten.given (Records.key_of key) size lon_um nodes.now edges.now vertices.now) out.old).out }
{
    terrain::write::terrain_write_tile(key, size, lon_um, nodes, edges, vertices, out)
}

#[unsafe(no_mangle)]
pub extern "C" fn terrain_write_pack(
    south: i32,
    west: i32,
    size: u32,
    rows: u16,
    cols: u16,
    tiles: &[u8],
    lengths: &[u32],
    out: &mut [u8],
) -> TerrainWritten
    ensures value { result ≡ written_out (PackWritten.pack (PackWritten.given south west size rows cols tiles.now lengths.now) out.old).answer }
    ensures out_after { out.new ≡ (PackWritten.pack (PackWritten.given south west size rows cols tiles.now lengths.now) out.old).out }
{
    terrain::write::terrain_write_pack(south, west, size, rows, cols, tiles, lengths, out)
}
