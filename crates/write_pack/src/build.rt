// What the records of a text make: the tiles that are done, the one whose records are being read, and the pack of them.
use crate::fault::Fault;
use crate::words;
use crate::words::{is_blank, numbers};
use pack::TileKey;
use refusal::Refusal;
use std::alloc::Global;
use writer::Grid;

// As many numbers as a tile of 49,152 bytes can have: 6,140 nodes, 2,456 edges or 8,186 vertices.
const NODES: usize = 18420;

const EDGES: usize = 17192;

const VERTICES: usize = 24558;

// Room for the bytes of all tiles, for how many they are, and for the pack: those bytes and a directory of 98,240 places.
const TILES: usize = 3145728;

const COUNT: usize = 16384;

pub const PACK: usize = 3932160;

// A word more than the longest record has: a line with more is none.
const WORDS: usize = 9;

// The tile whose records are being read, and its line.
#[derive(Clone, Copy)]
struct Open {
    line: u32,
    key: TileKey,
    lon_um: u32,
}

// Each list has its room from the start on, the tiles' bytes once there is a grid: one that grew would take up to twice as much at the end.
#[derive(Drop)]
pub struct Build {
    // With its line.
    grid: Option<(u32, Grid)>,
    open: Option<Open>,
    // The numbers of the open tile's records.
    nodes: Vec<u16>,
    edges: Vec<u32>,
    vertices: Vec<u16>,
    // The tiles that are done: their bytes, and the length and the line of each.
    bytes: Vec<u8>,
    lengths: Vec<u32>,
    lines: Vec<u32>,
}

// The numbers of a record put behind those before it. More than there is room for make a tile over 49,152 bytes.
fn put<T: Copy + Drop>(
    list: &mut Vec<T>,
    numbers: &[T],
    most: usize,
    tile: u32,
) -> Result<(), Fault> {
    if most < list.len().saturating_add(numbers.len()) {
        return Err(Fault::Refused(tile, Refusal::BadValue));
    }
    list.extend_from_slice(numbers)?;
    Ok(())
}

impl Build {
    pub(crate) fn new(alloc: Global) -> Result<Build, Fault> {
        Ok(Build {
            grid: None,
            open: None,
            nodes: Vec::with_capacity(alloc, NODES)?,
            edges: Vec::with_capacity(alloc, EDGES)?,
            lengths: Vec::with_capacity(alloc, COUNT)?,
            lines: Vec::with_capacity(alloc, COUNT)?,
            vertices: Vec::with_capacity(alloc, VERTICES)?,
            bytes: Vec::new(alloc),
        })
    }

    // A record of the tile of line `tile`, put behind those before it.
    fn record(&mut self, tile: u32, line: u32, word: &[u8], rest: &[&[u8]]) -> Result<(), Fault> {
        let unread = Fault::Unread(line);
        match word {
            b"node" => {
                let node: [u16; 3] = numbers(rest).ok_or(unread)?;
                put(&mut self.nodes, &node, NODES, tile)
            }
            b"edge" => {
                let edge: [u32; 7] = numbers(rest).ok_or(unread)?;
                put(&mut self.edges, &edge, EDGES, tile)
            }
            b"vertex" => {
                let vertex: [u16; 3] = numbers(rest).ok_or(unread)?;
                put(&mut self.vertices, &vertex, VERTICES, tile)
            }
            _ => Err(unread),
        }
    }

    // A line: nothing, the grid, the beginning of a tile, or a record of the open one. `out` is where a tile is written before its length is known.
    pub(crate) fn line(&mut self, number: u32, line: &[u8], out: &mut [u8]) -> Result<(), Fault> {
        let unread = Fault::Unread(number);
        let mut room = [b"".as_slice(); WORDS];
        let words = line.split(is_blank).filter(|word| !word.is_empty());
        for (i, word) in words.enumerate() {
            if WORDS <= i {
                break;
            }
            room[i] = word;
        }
        let count = room.iter().position(|word| word.is_empty());
        let Some((word, rest)) = room[..count.unwrap_or(WORDS)].split_first() else {
            return Ok(());
        };
        if word.starts_with(b"#") {
            return Ok(());
        }
        let Some((_, grid)) = self.grid else {
            if *word != b"grid".as_slice() {
                return Err(unread);
            }
            return self.begin(number, words::grid(rest).ok_or(unread)?);
        };
        if *word == b"tile".as_slice() {
            self.close(grid, out)?;
            let (key, lon_um) = words::tile(rest).ok_or(unread)?;
            self.open = Some(Open {
                line: number,
                key,
                lon_um,
            });
            return Ok(());
        }
        match self.open {
            Some(open) => self.record(open.line, number, word, rest),
            None => Err(unread),
        }
    }

    // A grid is tried at once, by a pack without tiles that finds no room: 14 where the grid is good.
    fn begin(&mut self, line: u32, grid: Grid) -> Result<(), Fault> {
        if writer::pack(grid, b"", &[], &mut []) != Err(Refusal::NoRoom) {
            return Err(Fault::Refused(line, Refusal::BadValue));
        }
        self.grid = Some((line, grid));
        self.bytes.reserve_exact(TILES)?;
        Ok(())
    }

    // The open tile, if there is one, written behind those before it.
    fn close(&mut self, grid: Grid, out: &mut [u8]) -> Result<(), Fault> {
        let Some(open) = self.open.take() else {
            return Ok(());
        };
        let left = TILES.saturating_sub(self.bytes.len()).min(out.len());
        let length = writer::tile(
            open.key,
            grid.size,
            open.lon_um,
            &self.nodes,
            &self.edges,
            &self.vertices,
            &mut out[..left],
        )
        .map_err(|refusal| Fault::Refused(open.line, refusal))?;
        if COUNT <= self.lengths.len() {
            return Err(Fault::Refused(open.line, Refusal::NoRoom));
        }
        let end = out.len().min(length as usize);
        self.bytes.extend_from_slice(&out[..end])?;
        self.lengths.push(length)?;
        self.lines.push(open.line)?;
        self.nodes.clear();
        self.edges.clear();
        self.vertices.clear();
        Ok(())
    }

    // The pack of the grid and the first `count` tiles.
    fn packed(&self, grid: Grid, count: usize, out: &mut [u8]) -> Result<u32, Refusal> {
        let lengths = &self.lengths[..count.min(self.lengths.len())];
        let end = lengths
            .iter()
            .fold(0usize, |end, length| end.saturating_add(*length as usize));
        writer::pack(grid, &self.bytes[..end.min(self.bytes.len())], lengths, out)
    }

    // How many tiles there are up to the one of this line.
    fn count_to(&self, line: u32) -> usize {
        self.lines.partition_point(|other| *other <= line)
    }

    // The line to blame where the pack is refused: that of the first tile with which it is, or the grid's. What is wrong with some tiles stays wrong with more,
    // and 13 comes before 14.
    fn blamed(&self, grid_line: u32, grid: Grid, refusal: Refusal, out: &mut [u8]) -> u32 {
        if self.packed(grid, 0, out) == Err(refusal) {
            return grid_line;
        }
        let first = self.lines.partition_point(|line| self.packed(grid, self.count_to(*line), out)
            != Err(refusal));
        match self.lines.get(first) {
            Some(line) => *line,
            None => grid_line,
        }
    }

    // The text's end, where line `number` would be, closes the last tile; without a grid it can't be read. The pack's length, in `out`.
    pub(crate) fn pack(mut self, number: u32, out: &mut [u8]) -> Result<u32, Fault> {
        let Some((line, grid)) = self.grid else {
            return Err(Fault::Unread(number));
        };
        self.close(grid, out)?;
        self.packed(grid, self.lengths.len(), out).map_err(|refusal| Fault::Refused(
            self.blamed(line, grid, refusal, out),
            refusal,
        ))
    }
}
