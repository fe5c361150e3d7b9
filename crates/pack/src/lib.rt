// Pack header, tile directory and reading a lent pack: the Rust's pack.rs.
//
// | Offset      | Bytes           | Content                                                                                |
// | ----------- | --------------- | -------------------------------------------------------------------------------------- |
// | 0           | 512             | Header: magic, version, grid, offsets, CRC-32 in its last 4 bytes                      |
// | `directory` | rows × cols × 8 | For each tile, row by row from the south-west: byte offset u32, length u32 (0: no tile) |
// | `data`      |                 | Tiles, back to back                                                                     |
#![tactic(auto)]

pub mod bytes;
pub mod grid;

ghost use Rattle.std.specs.Prelude.{◌≡◌, ◌*◌};
ghost use Rattle.pack.specs.Sector as Sector;
ghost use Rattle.pack.specs.Grid as Grid;

use refusal::Refusal;

pub const HEADER_BYTES: usize = 512;

pub const ENTRY_BYTES: usize = 8;

// A tile by grid row (from the south) and column (from the west).
#[derive(Clone, Copy, PartialEq, Eq, Debug)]
pub struct TileKey {
    pub row: u16,
    pub col: u16,
}

#[derive(Clone, Copy, PartialEq, Eq, Debug)]
pub struct Header {
    // Tile side in micro-degrees.
    pub tile: u32,
    // South-west corner of the grid, micro-degrees.
    pub south: i32,
    pub west: i32,
    pub rows: u16,
    pub cols: u16,
    pub directory: u32,
    pub data: u32,
    pub total: u32,
    pub tiles: u32,
    // Seconds since 1970 of the map data.
    pub created: u64,
    pub attribution_offset: u32,
    pub attribution_len: u32,
}

// The south-west corner of a tile, micro-degrees.
#[derive(Clone, Copy, PartialEq, Eq, Debug)]
pub struct Corner {
    pub south: i32,
    pub west: i32,
}

// `len` bytes from `offset` on in a lent pack: 2 where they pass its end.
#[tactic(auto, using(std::proofs::lemmas::Bool::Decides::nat_tests), unfolding(crate::specs::Grid::read))]
pub fn read(pack: &[u8], offset: u64, len: usize) -> Result<usize, Refusal>
    ensures { result ≡ Grid.read pack.now offset len }
{
    let size = pack.len() as u64;
    if size < offset || size - offset < len as u64 {
        return Err(Refusal::PastPack);
    }
    Ok(offset as usize)
}

// Whether `tiles` tiles from `from` on stay within 360 degrees of 0.
fn spans(from: i32, tiles: u16, size: u32) -> bool
    ensures { result ≡ Sector.spans from tiles size }
{
    if from < -360000000 {
        return false;
    }
    let to = (from as i64) + (((tiles as u64) * (size as u64)) as i64);
    to <= 360000000
}

// The sector's fields as they stand.
fn header_at(sector: &[u8; 512]) -> Header
    ensures { result ≡ Sector.header_at sector.now }
{
    Header {
        tile: bytes::u32_at(sector, 20),
        south: bytes::i32_at(sector, 24),
        west: bytes::i32_at(sector, 28),
        rows: bytes::u16_at(sector, 32),
        cols: bytes::u16_at(sector, 34),
        directory: bytes::u32_at(sector, 36),
        data: bytes::u32_at(sector, 40),
        total: bytes::u32_at(sector, 44),
        tiles: bytes::u32_at(sector, 48),
        created: bytes::u64_at(sector, 52),
        attribution_offset: bytes::u32_at(sector, 60),
        attribution_len: bytes::u32_at(sector, 64),
    }
}

fn is_sum(sector: &[u8; 512]) -> bool
    ensures { result ≡ Sector.is_sum sector.now }
{
    let whole = &sector[..];
    crc::crc32(&whole[..508]) == bytes::u32_at(sector, 508)
}

fn is_magic(sector: &[u8; 512]) -> bool
    ensures { result ≡ Sector.is_magic sector.now }
{
    bytes::u32_at(sector, 0) == 0x414e4156
        && bytes::u32_at(sector, 4) == 0x5245542d
        && bytes::u32_at(sector, 8) == 0x4e494152
        && bytes::u32_at(sector, 12) == 0
}

impl Header {
    // The rules of a header: `parse` refuses a sector that breaks one with 3, and a call that is given such a header answers 12.
    #[tactic(auto, using(std::proofs::lemmas::Bool::Decides::nat_tests), unfolding(crate::specs::Sector::rules))]
    pub fn rules(self) -> bool
        ensures { result ≡ Sector.rules self }
    {
        let entries = (self.rows as u64) * (self.cols as u64) * 8;
        if self.tile == 0 || 65535 < self.tile || self.rows == 0 || self.cols == 0 {
            return false;
        }
        if !spans(self.south, self.rows, self.tile) {
            return false;
        }
        if !spans(self.west, self.cols, self.tile) {
            return false;
        }
        (self.directory as u64) + entries == self.data as u64 && self.data <= self.total
    }

    // A header that a call is given: 12 where it breaks a rule.
    fn given(self) -> Result<(), Refusal>
        ensures { result ≡ Grid.given self }
    {
        if self.rules() {
            Ok(())
        } else {
            Err(Refusal::BadState)
        }
    }

    // The header of a sector: 4 for its CRC, then 3 for any other rule.
    #[tactic(auto, unfolding(crate::specs::Sector::parse))]
    pub fn parse(sector: &[u8; 512]) -> Result<Header, Refusal>
        ensures { result ≡ Sector.parse sector.now }
    {
        if !is_sum(sector) {
            return Err(Refusal::Corrupt);
        }
        if !is_magic(sector) || bytes::u16_at(sector, 16) != 2 {
            return Err(Refusal::Unsupported);
        }
        let header = header_at(sector);
        if !header.rules() {
            return Err(Refusal::Unsupported);
        }
        Ok(header)
    }

    // The tile that holds a point, if it lies in the grid.
    #[tactic(auto, unfolding(crate::specs::Grid::key))]
    pub fn key(self, lat: i32, lon: i32) -> Result<Option<TileKey>, Refusal>
        ensures { result ≡ Grid.key self lat lon }
    {
        self.given()?;
        if !grid::is_point(lat, lon) {
            return Err(Refusal::OutOfRange);
        }
        Ok(grid::key_of(self, lat, lon))
    }

    // The key of a row and a column, if they lie in the grid.
    #[tactic(auto, unfolding(crate::specs::Grid::checked))]
    pub fn checked(self, row: i64, col: i64) -> Result<Option<TileKey>, Refusal>
        ensures { result ≡ Grid.checked self row col }
    {
        self.given()?;
        Ok(grid::checked_of(self, row, col))
    }

    // The south-west corner of a tile.
    #[tactic(auto, unfolding(crate::specs::Grid::origin))]
    pub fn origin(self, key: TileKey) -> Result<Corner, Refusal>
        ensures { result ≡ Grid.origin self key }
    {
        self.given()?;
        if !grid::in_grid(self, key) {
            return Err(Refusal::OutsideGrid);
        }
        Ok(grid::corner_of(self, key))
    }

    // Byte offset of a tile's directory entry.
    #[tactic(auto, unfolding(crate::specs::Grid::entry))]
    pub fn entry(self, key: TileKey) -> Result<u64, Refusal>
        ensures { result ≡ Grid.entry self key }
    {
        self.given()?;
        if !grid::in_grid(self, key) {
            return Err(Refusal::OutsideGrid);
        }
        Ok(grid::entry_of(self, key))
    }

    // A directory entry's tile, offset and length, none for no roads: 4 where it does not lie between data and total.
    #[tactic(auto, unfolding(crate::specs::Grid::locate))]
    pub fn locate(self, entry: &[u8; 8]) -> Result<Option<(u32, u32)>, Refusal>
        ensures { result ≡ Grid.locate self entry.now }
    {
        self.given()?;
        grid::locate_of(self, entry)
    }
}
