// Number 13's tests of what a pack is made of: the grid, the bytes cut into tiles, each tile, and the keys.
ghost use Rattle.std.specs.Prelude.{◌≡◌, false, [], ◌≤◌, ◌<◌, eqb, length};
ghost use Rattle.pack.specs.Sector as Sector;
ghost use Rattle.tile.specs.Parse as Parse;
ghost use Rattle.writer.specs.PackWritten as PackWritten;
ghost use Rattle.writer.specs.PackSteps as Steps;

use crate::Grid;
use crate::tiles::Tiles;
use pack::TileKey;

// How many keys are told apart by a mark; beyond, tiles that are not given in row order may be searched.
const MARKS: usize = 0x4_0000;

// Whether `tiles` tiles from `from` on stay within 360 degrees of 0.
fn spans(from: i32, tiles: u16, size: u32) -> bool
    ensures { result ≡ Sector.spans from tiles size }
{
    if from < -360000000 {
        return false;
    }
    i64::from(from) + i64::from(tiles) * i64::from(size) <= 360000000
}

// The rules of a header that a grid can break.
fn grid_good(grid: Grid) -> bool
    ensures { result ≡ PackWritten.grid_good (Steps.given grid [] []) }
{
    if grid.size == 0 || 65535 < grid.size || grid.rows == 0 || grid.cols == 0 {
        return false;
    }
    spans(grid.south, grid.rows, grid.size) && spans(grid.west, grid.cols, grid.size)
}

// The key that a tile's bytes name.
pub fn key_in(bytes: &[u8]) -> TileKey
    ensures { result ≡ PackWritten.key_in bytes.now }
{
    tile::read::head(bytes).key
}

#[tactic(auto, unfolding(tile::specs::Parse::parse))]
fn accepts(bytes: &[u8], key: TileKey, size: u32) -> bool
    ensures { result ≡ Parse.accepts bytes.now key size }
{
    tile::parse(bytes, key, size).is_ok()
}

// One tile: its length, what `tile::parse` asks, the order of its nodes among it, and its place in the grid.
fn tile_is_good(grid: Grid, bytes: &[u8]) -> bool
    ensures { result ≡ PackWritten.tile_is_good (Steps.given grid [] []) bytes.now }
{
    let key = key_in(bytes);
    bytes.len() <= 49152
        && accepts(bytes, key, grid.size)
        && key.row < grid.rows
        && key.col < grid.cols
}

fn tiles_good(grid: Grid, tiles: &Tiles) -> bool
    ensures { result ≡ PackWritten.tiles_good (Steps.given grid tiles.now.bytes.now tiles.now.lengths.now) (PackWritten.cut tiles.now.lengths.now tiles.now.bytes.now) }
{
    let mut at: usize = 0;
    for i in 0..tiles.lengths.len() {
        let tile = tiles.tile(i, at);
        if !tile_is_good(grid, tile) {
            return false;
        }
        at += tile.len();
    }
    true
}

// Whether one of the tiles from number `first` on, which starts at `start`, has this key.
#[tactic(auto, using(std::proofs::lemmas::Bool::Decides::nat_tests, crate::proofs::KeyLaws::key_here, crate::proofs::KeyLaws::key_on, crate::proofs::KeyLaws::key_end))]
fn has_key(key: TileKey, tiles: &Tiles, first: usize, start: usize) -> bool
    requires { start ≡ Steps.start_of tiles.now.lengths.now first }
    ensures { result ≡ PackWritten.has_key key (Steps.tiles_from tiles.now.lengths.now tiles.now.bytes.now first) }
{
    let mut at = start;
    for i in first..tiles.lengths.len() {
        let tile = tiles.tile(i, at);
        if tile::check::is_key(tile, key) {
            return true;
        }
        at += tile.len();
    }
    false
}

// A key as a number that rises in row order.
fn rank(key: TileKey) -> u32
    ensures { result ≡ Steps.rank key }
{
    u32::from(key.row) * 0x1_0000 + u32::from(key.col)
}

// The place of a key's mark. In a grid of as many places each has its own.
#[tactic(auto, unfolding(crate::specs::PackSteps::slot))]
fn slot(key: TileKey, cols: u16) -> usize
    ensures value { result ≡ Steps.slot cols key }
    ensures upper_bound { result < 0x4_0000 }
{
    (usize::from(key.row) * usize::from(cols) + usize::from(key.col)) % MARKS
}

// As `has_key`. None of those tiles ranks below `least`, and each has set its mark, so a key that ranks below, or whose mark is not set, is new without a search.
fn again(key: TileKey, least: u32, mark: u8, tiles: &Tiles, first: usize, start: usize) -> bool
    requires start_place { start ≡ Steps.start_of tiles.now.lengths.now first }
    requires low_rank_is_new { Steps.rank key < least → PackWritten.has_key key (Steps.tiles_from tiles.now.lengths.now tiles.now.bytes.now first) ≡ false }
    requires unmarked_is_new { mark ≡ 0 → PackWritten.has_key key (Steps.tiles_from tiles.now.lengths.now tiles.now.bytes.now first) ≡ false }
    ensures { result ≡ PackWritten.has_key key (Steps.tiles_from tiles.now.lengths.now tiles.now.bytes.now first) }
{
    least <= rank(key) && mark != 0 && has_key(key, tiles, first, start)
}

// As `no_key_twice`, with room for the marks. From the last tile to the first, so that tiles given in row order need no mark.
fn each_once(cols: u16, tiles: &Tiles, marks: &mut [u8]) -> bool
    requires { length marks.old ≡ 0x4_0000 }
    ensures { result ≡ PackWritten.no_key_twice (PackWritten.cut tiles.now.lengths.now tiles.now.bytes.now) }
{
    let mut end = tiles.bytes.len();
    let mut least = u32::MAX;
    for i in (0..tiles.lengths.len()).rev() {
        let at = end - tiles.lengths[i] as usize;
        let key = key_in(tiles.tile(i, at));
        let place = slot(key, cols);
        if again(key, least, marks[place], tiles, i + 1, end) {
            return false;
        }
        least = least.min(rank(key));
        marks[place] = 1;
        end = at;
    }
    true
}

// No key is given twice.
fn no_key_twice(cols: u16, tiles: &Tiles) -> bool
    ensures { result ≡ PackWritten.no_key_twice (PackWritten.cut tiles.now.lengths.now tiles.now.bytes.now) }
{
    let mut marks = [0u8; MARKS];
    each_once(cols, tiles, &mut marks)
}

// Everything that number 13 asks of a pack, but that the lengths cut the bytes.
#[tactic(auto, unfolding(crate::specs::PackWritten::pack_good))]
pub fn pack_good(grid: Grid, tiles: &Tiles) -> bool
    ensures { result ≡ PackWritten.pack_good (Steps.given grid tiles.now.bytes.now tiles.now.lengths.now) }
{
    grid_good(grid) && tiles_good(grid, tiles) && no_key_twice(grid.cols, tiles)
}
