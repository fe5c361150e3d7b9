// The crossing of a transect for other languages: 0 with an edge and a segment, 256 where no segment meets it, or the refusal's number.
ghost use Rattle.std.specs.Prelude.{◌≡◌};
ghost use Rattle.terrain.specs.Records as Records;
ghost use Rattle.terrain.specs.Transects as Transects;

use crate::records::{TerrainHeader, TerrainKey, TerrainPoint};
use refusal::Refusal;

#[repr(C)]
#[derive(Clone, Copy)]
pub struct TerrainCrossed {
    pub number: u32,
    pub edge: u16,
    pub segment: u32,
}

fn crossed_out(answer: Result<Option<(u16, u32)>, Refusal>) -> TerrainCrossed
    ensures { result ≡ Transects.crossed_out answer }
{
    match answer {
        Ok(Some((edge, segment))) => TerrainCrossed {
            number: 0,
            edge,
            segment,
        },
        Ok(None) => TerrainCrossed {
            number: 256,
            edge: 0,
            segment: 0,
        },
        Err(n) => TerrainCrossed {
            number: n.number(),
            edge: 0,
            segment: 0,
        },
    }
}

pub fn terrain_crossing(
    first: TerrainPoint,
    second: TerrainPoint,
    header: TerrainHeader,
    key: TerrainKey,
    bytes: &[u8],
) -> TerrainCrossed
    ensures { Transects.Told (Records.point_of first) (Records.point_of second) (Records.header_of header) (Records.key_of key) bytes.now result }
{
    let h = crate::records::header_of(header);
    let k = crate::records::key_of(key);
    let from = crate::records::point_of(first);
    let to = crate::records::point_of(second);
    crossed_out(crossing::crossing(from, to, h, k, bytes))
}
