// The grid's arithmetic, total for every header: what the public functions of `Header` answer once their arguments have passed.
// Functions that have tested the header already call these.
ghost use Rattle.std.specs.Prelude.{◌≡◌, ◌*◌, ◌<◌, pos, ◌+ℤ◌};
ghost use Rattle.pack.specs.Grid as Grid;

use crate::{Corner, Header, TileKey};
use refusal::Refusal;

// Whether a point is one that number 8 doesn't refuse.
pub fn is_point(lat: i32, lon: i32) -> bool
    ensures { result ≡ Grid.is_point lat lon }
{
    (-360000000..=360000000).contains(&lat) && (-360000000..=360000000).contains(&lon)
}

pub fn in_grid(header: Header, key: TileKey) -> bool
    ensures { result ≡ Grid.in_grid header key }
{
    key.row < header.rows && key.col < header.cols
}

// A row and a column that lie in the grid.
#[tactic(auto, using(std::proofs::lemmas::Bool::Decides::nat_tests), unfolding(crate::specs::Grid::checked_of))]
pub fn checked_of(header: Header, row: i64, col: i64) -> Option<TileKey>
    ensures { result ≡ Grid.checked_of header row col }
{
    if row < 0 || header.rows as i64 <= row || col < 0 || header.cols as i64 <= col {
        return None;
    }
    Some(TileKey {
        row: row as u16,
        col: col as u16,
    })
}

// z divided by n and rounded down.
fn floor_of(z: i64, n: u32) -> i64
    requires { 0 < n }
    ensures { result ≡ Grid.floor_of z n }
{
    if z < 0 {
        return -1 - ((((-1 - z) as u64) / (n as u64)) as i64);
    }
    ((z as u64) / (n as u64)) as i64
}

// The tile that holds a point.
#[tactic(auto, using(std::proofs::lemmas::Bool::Decides::nat_tests), unfolding(crate::specs::Grid::key_of))]
pub fn key_of(header: Header, lat: i32, lon: i32) -> Option<TileKey>
    ensures { result ≡ Grid.key_of header lat lon }
{
    let tile = header.tile;
    if tile == 0 {
        return None;
    }
    let row = floor_of((lat as i64) - (header.south as i64), tile);
    let col = floor_of((lon as i64) - (header.west as i64), tile);
    checked_of(header, row, col)
}

// from + count * size, held to 32 bits from above.
fn along(from: i32, count: u16, size: u32) -> i32
    ensures { result ≡ Grid.held (from +ℤ pos (count * size)) }
{
    let z = (from as i64) + (((count as u64) * (size as u64)) as i64);
    if 2147483647 < z {
        return 2147483647;
    }
    z as i32
}

// The south-west corner of a tile.
#[tactic(auto, using(std::proofs::lemmas::Bool::Decides::nat_tests), unfolding(crate::specs::Grid::corner_of))]
pub fn corner_of(header: Header, key: TileKey) -> Corner
    ensures { result ≡ Grid.corner_of header key }
{
    Corner {
        south: along(header.south, key.row, header.tile),
        west: along(header.west, key.col, header.tile),
    }
}

// Where a tile's directory entry stands.
#[tactic(auto, using(std::proofs::lemmas::Bool::Decides::nat_tests), unfolding(crate::specs::Grid::entry_of))]
pub fn entry_of(header: Header, key: TileKey) -> u64
    ensures { result ≡ Grid.entry_of header key }
{
    (header.directory as u64) + ((key.row as u64) * (header.cols as u64) + (key.col as u64)) * 8
}

// A directory entry's tile.
#[tactic(auto, using(std::proofs::lemmas::Bool::Decides::nat_tests), unfolding(crate::specs::Grid::locate_of))]
pub fn locate_of(header: Header, entry: &[u8; 8]) -> Result<Option<(u32, u32)>, Refusal>
    ensures { result ≡ Grid.locate_of header entry.now }
{
    let offset = crate::bytes::u32_at(entry, 0);
    let length = crate::bytes::u32_at(entry, 4);
    if length == 0 {
        return Ok(None);
    }
    if offset < header.data || (header.total as u64) < (offset as u64) + (length as u64) {
        return Err(Refusal::Corrupt);
    }
    Ok(Some((offset, length)))
}
