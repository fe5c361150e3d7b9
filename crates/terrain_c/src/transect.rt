// The crossing of a transect.
ghost use Rattle.terrain.specs.Records as Records;
ghost use Rattle.terrain.specs.Transects as Transects;

use terrain::records::{TerrainHeader, TerrainKey, TerrainPoint};
use terrain::transect::TerrainCrossed;

#[unsafe(no_mangle)]
pub extern "C" fn terrain_crossing(
    first: TerrainPoint,
    second: TerrainPoint,
    header: TerrainHeader,
    key: TerrainKey,
    bytes: &[u8],
) -> TerrainCrossed
    ensures { Transects.Told (Records.point_of first) (Records.point_of second) (Records.header_of header) (Records.key_of key) bytes.now result }
{
    terrain::transect::terrain_crossing(first, second, header, key, bytes)
}
