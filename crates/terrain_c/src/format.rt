// The format.
ghost use Rattle.std.specs.Prelude.{◌≡◌};
ghost use Rattle.pack.specs.Sector as Sector;
ghost use Rattle.pack.specs.Grid as Grid;
ghost use Rattle.tile.specs.Parse as Parse;
ghost use Rattle.tile.specs.Readers as Readers;
ghost use Rattle.terrain.specs.Records as Records;
ghost use Rattle.terrain.specs.Format as Format;

use terrain::format::{
    TerrainEdgeRead, TerrainEntries, TerrainEntryRead, TerrainFound, TerrainHeaderParsed,
    TerrainKeyed, TerrainLocated, TerrainNodeRead, TerrainOffset, TerrainOrigin, TerrainRange,
    TerrainTileParsed,
};
use terrain::records::{TerrainEdge, TerrainHeader, TerrainKey, TerrainPoint};

#[unsafe(no_mangle)]
pub extern "C" fn terrain_pack_read(pack: &[u8], offset: u64, len: usize) -> TerrainRange
    ensures { result ≡ Format.range_out (Grid.read pack.now offset len) }
{
    terrain::format::terrain_pack_read(pack, offset, len)
}

#[unsafe(no_mangle)]
pub extern "C" fn terrain_header_parse(sector: &[u8; 512]) -> TerrainHeaderParsed
    ensures { result ≡ Format.header_parsed_out (Sector.parse sector.now) }
{
    terrain::format::terrain_header_parse(sector)
}

#[unsafe(no_mangle)]
pub extern "C" fn terrain_header_key(header: TerrainHeader, point: TerrainPoint) -> TerrainKeyed
    ensures { result ≡ Format.keyed_out (Grid.key (Records.header_of header) point.lat point.lon) }
{
    terrain::format::terrain_header_key(header, point)
}

#[unsafe(no_mangle)]
pub extern "C" fn terrain_header_checked(header: TerrainHeader, row: i64, col: i64) -> TerrainKeyed
    ensures { result ≡ Format.keyed_out (Grid.checked (Records.header_of header) row col) }
{
    terrain::format::terrain_header_checked(header, row, col)
}

#[unsafe(no_mangle)]
pub extern "C" fn terrain_header_origin(header: TerrainHeader, key: TerrainKey) -> TerrainOrigin
    ensures { result ≡ Format.origin_out (Grid.origin (Records.header_of header) (Records.key_of key)) }
{
    terrain::format::terrain_header_origin(header, key)
}

#[unsafe(no_mangle)]
pub extern "C" fn terrain_header_entry(header: TerrainHeader, key: TerrainKey) -> TerrainOffset
    ensures { result ≡ Format.offset_out (Grid.entry (Records.header_of header) (Records.key_of key)) }
{
    terrain::format::terrain_header_entry(header, key)
}

#[unsafe(no_mangle)]
pub extern "C" fn terrain_header_locate(header: TerrainHeader, entry: &[u8; 8]) -> TerrainLocated
    ensures { result ≡ Format.located_out (Grid.locate (Records.header_of header) entry.now) }
{
    terrain::format::terrain_header_locate(header, entry)
}

#[unsafe(no_mangle)]
pub extern "C" fn terrain_tile_parse(bytes: &[u8], key: TerrainKey, size: u32) -> TerrainTileParsed
    ensures { result ≡ Format.tile_parsed_out (Parse.parse bytes.now (Records.key_of key) size) }
{
    terrain::format::terrain_tile_parse(bytes, key, size)
}

#[unsafe(no_mangle)]
pub extern "C" fn terrain_tile_node(bytes: &[u8], index: u16) -> TerrainNodeRead
    ensures { result ≡ Format.node_read_out (Readers.node bytes.now index) }
{
    terrain::format::terrain_tile_node(bytes, index)
}

#[unsafe(no_mangle)]
pub extern "C" fn terrain_tile_edge(bytes: &[u8], index: u16) -> TerrainEdgeRead
    ensures { result ≡ Format.edge_read_out (Readers.edge bytes.now index) }
{
    terrain::format::terrain_tile_edge(bytes, index)
}

#[unsafe(no_mangle)]
pub extern "C" fn terrain_tile_point(
    bytes: &[u8],
    edge: TerrainEdge,
    index: usize,
) -> TerrainNodeRead
    ensures { result ≡ Format.node_read_out (Readers.point bytes.now (Records.edge_of edge) index) }
{
    terrain::format::terrain_tile_point(bytes, edge, index)
}

#[unsafe(no_mangle)]
pub extern "C" fn terrain_tile_incident(bytes: &[u8], node: u16) -> TerrainEntries
    ensures { result ≡ Format.entries_out (Readers.incident bytes.now node) }
{
    terrain::format::terrain_tile_incident(bytes, node)
}

#[unsafe(no_mangle)]
pub extern "C" fn terrain_tile_entry(bytes: &[u8], entry: u32) -> TerrainEntryRead
    ensures { result ≡ Format.entry_read_out (Readers.incident_entry bytes.now entry) }
{
    terrain::format::terrain_tile_entry(bytes, entry)
}

#[unsafe(no_mangle)]
pub extern "C" fn terrain_tile_node_at(bytes: &[u8], x: u16, y: u16) -> TerrainFound
    ensures { result ≡ Format.found_out (Readers.node_at bytes.now x y) }
{
    terrain::format::terrain_tile_node_at(bytes, x, y)
}
