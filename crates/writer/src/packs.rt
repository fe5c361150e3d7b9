// A pack from a grid and finished tiles: the sector, the directory and the tiles. An entry first says where its tile stands among the bytes given;
// then the places are gone through in row order, and each tile is copied behind the one before.
ghost use Rattle.std.specs.Prelude.{◌≡◌, true, ◌++◌, ◌+◌, ◌*◌, ◌≤◌, ◌<◌, length, take, drop};
ghost use Rattle.std.proofs.Math.Seq.{paste};
ghost use Rattle.pack.specs.Bytes.{u32_at};
ghost use Rattle.writer.specs.Fields.{put, puts};
ghost use Rattle.writer.specs.TileWritten.{field};
ghost use Rattle.writer.specs.PackWritten as PackWritten;
ghost use Rattle.writer.specs.PackSteps as Steps;

use crate::fields::put;
use crate::pack_rules::key_in;
use crate::tiles::Checked;
use pack::{Header, TileKey};

// Magic and version.
#[tactic(auto, unfolding(crate::specs::Fields::puts))]
fn mark(out: &mut [u8])
    requires { length out.old ≡ 512 }
    ensures { out.new ≡ puts PackWritten.mark_fields out.old }
{
    put::<4>(out, 0, 0x414e4156);
    put::<4>(out, 4, 0x5245542d);
    put::<4>(out, 8, 0x4e494152);
    put::<2>(out, 16, 2);
}

#[tactic(auto, unfolding(crate::specs::Fields::puts))]
fn grid_fields(out: &mut [u8], header: Header)
    requires { length out.old ≡ 512 }
    ensures { out.new ≡ puts (PackWritten.grid_fields header) out.old }
{
    put::<4>(out, 20, header.tile);
    put::<4>(out, 24, num::cast::u32_of_i32(header.south));
    put::<4>(out, 28, num::cast::u32_of_i32(header.west));
    put::<2>(out, 32, u32::from(header.rows));
    put::<2>(out, 34, u32::from(header.cols));
}

// Where the parts stand, and how many tiles there are.
#[tactic(auto, unfolding(crate::specs::Fields::puts))]
fn part_fields(out: &mut [u8], header: Header)
    requires { length out.old ≡ 512 }
    ensures { out.new ≡ puts (PackWritten.part_fields header) out.old }
{
    put::<4>(out, 36, header.directory);
    put::<4>(out, 40, header.data);
    put::<4>(out, 44, header.total);
    put::<4>(out, 48, header.tiles);
}

// The sector, and in its last four bytes the CRC of those before.
#[tactic(auto, unfolding(crate::specs::PackWritten::sector_bytes, crate::specs::PackWritten::sector_fields, crate::specs::Fields::holding, crate::specs::Fields::puts))]
fn sector(out: &mut [u8], header: Header)
    requires { length out.old ≡ 512 }
    ensures { out.new ≡ PackWritten.sector_bytes header }
{
    out.fill(0);
    mark(out);
    grid_fields(out, header);
    part_fields(out, header);
    let sum = crc::crc32(&out[..508]);
    put::<4>(out, 508, sum);
}

// Where a key's entry stands in the directory.
fn entry_of(key: TileKey, cols: u16) -> usize
    ensures { result ≡ (key.row * cols + key.col) * 8 }
{
    (usize::from(key.row) * usize::from(cols) + usize::from(key.col)) * 8
}

// A tile's start and length into its entry, for every tile. From the last to the first, as the invariant follows the list.
fn place_tiles(made: &Checked, out: &mut [u8])
    requires tiles_fit { length made.now.tiles.bytes.now < 0x1_0000_0000 }
    requires out_len { length out.old ≡ made.now.grid.rows * made.now.grid.cols * 8 }
    ensures { out.new ≡ Steps.entries (Steps.source (Steps.given made.now.grid made.now.tiles.bytes.now made.now.tiles.lengths.now) 0) (Steps.long (Steps.given made.now.grid made.now.tiles.bytes.now made.now.tiles.lengths.now) 0) (made.now.grid.rows * made.now.grid.cols) }
{
    let tiles = &made.tiles;
    out.fill(0);
    let mut end = tiles.bytes.len();
    for i in (0..tiles.lengths.len()).rev() {
        let length = tiles.lengths[i];
        let at = end - length as usize;
        let key = key_in(tiles.tile(i, at));
        let entry = entry_of(key, made.grid.cols);
        put::<4>(out, entry, at as u32);
        put::<4>(out, entry + 4, length);
        end = at;
    }
}

// Bytes copied to a place. Byte by byte, which the compiler makes memcpy of: `copy_from_slice` is memmove, which the archive for C asks of no host.
fn copy(out: &mut [u8], at: usize, from: &[u8])
    requires { at + length from.now ≤ length out.old }
    ensures { out.new ≡ paste out.old at from.now (length from.now) }
{
    for i in 0..from.len() {
        out[at + i] = from[i];
    }
}

// An entry's offset, for a tile that stands `at` bytes behind the sector; 0 without a tile.
fn offset_of(at: usize, length: usize) -> u32
    requires { 512 + at < 0x1_0000_0000 }
    ensures { result ≡ Steps.offset_of (512 + at) length }
{
    if length == 0 { 0 } else { (512 + at) as u32 }
}

// The tile of one entry copied to its place, and the entry's offset. Answers where the next tile goes.
fn lay(tiles: &[u8], out: &mut [u8], entry: usize, at: usize) -> usize
    requires entry_before { entry + 8 ≤ at }
    requires tile_there { u32_at out.old entry + u32_at out.old (entry + 4) ≤ length tiles.now }
    requires tile_fits { at + u32_at out.old (entry + 4) ≤ length out.old }
    requires out_bound { 512 + length out.old < 0x1_0000_0000 }
    ensures value { result ≡ at + u32_at out.old (entry + 4) }
    ensures out_after { out.new ≡ paste (put (field entry 4 (Steps.offset_of (512 + at) (u32_at out.old (entry + 4)))) out.old) at (take (u32_at out.old (entry + 4)) (drop (u32_at out.old entry) tiles.now)) (u32_at out.old (entry + 4)) }
{
    let source = pack::bytes::u32_at(out, entry) as usize;
    let length = pack::bytes::u32_at(out, entry + 4) as usize;
    put::<4>(out, entry, offset_of(at, length));
    copy(out, at, &tiles[source..source + length]);
    at + length
}

// The directory and the tiles behind it.
fn body(made: &Checked, out: &mut [u8])
    requires out_len { length out.old ≡ made.now.grid.rows * made.now.grid.cols * 8 + length made.now.tiles.bytes.now }
    requires out_bound { 512 + length out.old < 0x1_0000_0000 }
    ensures { out.new ≡ PackWritten.directory_bytes (Steps.given made.now.grid made.now.tiles.bytes.now made.now.tiles.lengths.now) ++ PackWritten.tiles_below (Steps.given made.now.grid made.now.tiles.bytes.now made.now.tiles.lengths.now) (made.now.grid.rows * made.now.grid.cols) }
{
    let places = (made.grid.rows as usize) * (made.grid.cols as usize);
    let last = places * 8;
    place_tiles(made, &mut out[..last]);
    let mut at = last;
    for place in 0..places {
        at = lay(made.tiles.bytes, out, place * 8, at);
    }
}

// A pack whose tiles passed number 13, into bytes that it fills.
#[tactic(auto, unfolding(crate::specs::PackWritten::pack_bytes))]
pub fn fill(made: &Checked, out: &mut [u8])
    requires out_len { length out.old ≡ 512 + (made.now.grid.rows * made.now.grid.cols * 8 + length made.now.tiles.bytes.now) }
    requires out_len_bound { length out.old < 0x1_0000_0000 }
    ensures { out.new ≡ PackWritten.pack_bytes (Steps.given made.now.grid made.now.tiles.bytes.now made.now.tiles.lengths.now) }
{
    let grid = made.grid;
    let header = Header {
        tile: grid.size,
        south: grid.south,
        west: grid.west,
        rows: grid.rows,
        cols: grid.cols,
        directory: 512,
        data: 512 + (grid.rows as u32) * (grid.cols as u32) * 8,
        total: out.len() as u32,
        tiles: made.tiles.lengths.len() as u32,
        created: 0,
        attribution_offset: 0,
        attribution_len: 0,
    };
    let (first, rest) = out.split_at_mut(512);
    sector(first, header);
    body(made, rest);
}
