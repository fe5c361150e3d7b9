// What the view's functions call, on slice and numbers, where `tile` and `geo` have no function of that form.
ghost use Rattle.std.specs.Prelude.{◌≡◌};
ghost use Rattle.tile.specs.Layout as Layout;
ghost use Rattle.geo.specs.Points as Points;
ghost use Rattle.cache.specs.Lookups as Lookups;

use geo::Point;
use pack::Header;
use refusal::Refusal;
use tile::Edge;

// The bytes of a run: `len` of them from page `first` on, or as many as the arena has there.
pub fn run<'a>(arena: &'a [u8], first: usize, len: usize) -> &'a [u8]
    ensures { result.now ≡ Lookups.run_bytes arena.now first len }
{
    let end = arena.len();
    if end / cache::PAGE_BYTES < first {
        return &arena[end..];
    }
    let at = first * cache::PAGE_BYTES;
    if end - at < len {
        return &arena[at..];
    }
    &arena[at..at + len]
}

pub fn node_count(bytes: &[u8]) -> usize
    ensures { result ≡ Layout.nodes_of bytes.now }
{
    pack::bytes::u16_at(bytes, 8) as usize
}

pub fn edge_count(bytes: &[u8]) -> usize
    ensures { result ≡ Layout.edges_of bytes.now }
{
    pack::bytes::u16_at(bytes, 10) as usize
}

// geo.rs's edge_point, with the bytes first.
pub fn edge_point(
    bytes: &[u8],
    header: Header,
    edge: Edge,
    index: usize,
) -> Result<(Point, i32), Refusal>
    ensures { result ≡ Points.edge_point header bytes.now edge index }
{
    geo::edge_point(header, bytes, edge, index)
}
