// The format for other languages. Each answer is a struct by value that begins with a number: 0 where the result follows, 256 where there is none, else
// the refusal's; zeros stand where no result does. A tile's bytes are read through a view of them.
ghost use Rattle.std.specs.Prelude.{◌≡◌};
ghost use Rattle.pack.specs.Sector as Sector;
ghost use Rattle.pack.specs.Grid as Grid;
ghost use Rattle.tile.specs.Parse as Parse;
ghost use Rattle.tile.specs.Readers as Readers;
ghost use Rattle.terrain.specs.Records as Records;
ghost use Rattle.terrain.specs.Format as Format;

use crate::records::{TerrainEdge, TerrainHeader, TerrainKey, TerrainNode, TerrainPoint};
use pack::{Header, TileKey};
use refusal::Refusal;
use tile::Node;

// Where bytes of a pack start.
#[repr(C)]
#[derive(Clone, Copy)]
pub struct TerrainRange {
    pub number: u32,
    pub at: usize,
}

#[repr(C)]
#[derive(Clone, Copy)]
pub struct TerrainHeaderParsed {
    pub number: u32,
    pub header: TerrainHeader,
}

#[repr(C)]
#[derive(Clone, Copy)]
pub struct TerrainKeyed {
    pub number: u32,
    pub key: TerrainKey,
}

// The south-west corner of a tile.
#[repr(C)]
#[derive(Clone, Copy)]
pub struct TerrainOrigin {
    pub number: u32,
    pub south: i32,
    pub west: i32,
}

#[repr(C)]
#[derive(Clone, Copy)]
pub struct TerrainOffset {
    pub number: u32,
    pub at: u64,
}

#[repr(C)]
#[derive(Clone, Copy)]
pub struct TerrainLocated {
    pub number: u32,
    pub offset: u32,
    pub length: u32,
}

// The head of a tile.
#[repr(C)]
#[derive(Clone, Copy)]
pub struct TerrainTileParsed {
    pub number: u32,
    pub key: TerrainKey,
    pub nodes: u16,
    pub edges: u16,
    pub vertices: u32,
    pub lon_um: u32,
}

#[repr(C)]
#[derive(Clone, Copy)]
pub struct TerrainNodeRead {
    pub number: u32,
    pub node: TerrainNode,
}

#[repr(C)]
#[derive(Clone, Copy)]
pub struct TerrainEdgeRead {
    pub number: u32,
    pub edge: TerrainEdge,
}

// Places of entries, from the first up to the last.
#[repr(C)]
#[derive(Clone, Copy)]
pub struct TerrainEntries {
    pub number: u32,
    pub start: u32,
    pub end: u32,
}

#[repr(C)]
#[derive(Clone, Copy)]
pub struct TerrainEntryRead {
    pub number: u32,
    pub edge: u16,
    pub ends: bool,
}

#[repr(C)]
#[derive(Clone, Copy)]
pub struct TerrainFound {
    pub number: u32,
    pub index: u16,
}

fn keyed_out(answer: Result<Option<TileKey>, Refusal>) -> TerrainKeyed
    ensures { result ≡ Format.keyed_out answer }
{
    let none = TerrainKey { row: 0, col: 0 };
    match answer {
        Ok(Some(k)) => TerrainKeyed {
            number: 0,
            key: crate::records::key_out(k),
        },
        Ok(None) => TerrainKeyed {
            number: 256,
            key: none,
        },
        Err(n) => TerrainKeyed {
            number: n.number(),
            key: none,
        },
    }
}

fn node_out(answer: Result<Node, Refusal>) -> TerrainNodeRead
    ensures { result ≡ Format.node_read_out answer }
{
    match answer {
        Ok(n) => TerrainNodeRead {
            number: 0,
            node: TerrainNode {
                x: n.x,
                y: n.y,
                z: n.z,
            },
        },
        Err(k) => TerrainNodeRead {
            number: k.number(),
            node: TerrainNode { x: 0, y: 0, z: 0 },
        },
    }
}

pub fn terrain_pack_read(pack: &[u8], offset: u64, len: usize) -> TerrainRange
    ensures { result ≡ Format.range_out (Grid.read pack.now offset len) }
{
    let answer = pack::read(pack, offset, len);
    match answer {
        Ok(at) => TerrainRange { number: 0, at },
        Err(n) => TerrainRange {
            number: n.number(),
            at: 0,
        },
    }
}

pub fn terrain_header_parse(sector: &[u8; 512]) -> TerrainHeaderParsed
    ensures { result ≡ Format.header_parsed_out (Sector.parse sector.now) }
{
    match Header::parse(sector) {
        Ok(h) => TerrainHeaderParsed {
            number: 0,
            header: crate::records::header_out(h),
        },
        Err(e) => TerrainHeaderParsed {
            number: e.number(),
            header: crate::records::header_out(crate::host::no_header()),
        },
    }
}

pub fn terrain_header_key(header: TerrainHeader, point: TerrainPoint) -> TerrainKeyed
    ensures { result ≡ Format.keyed_out (Grid.key (Records.header_of header) point.lat point.lon) }
{
    let h = crate::records::header_of(header);
    keyed_out(h.key(point.lat, point.lon))
}

pub fn terrain_header_checked(header: TerrainHeader, row: i64, col: i64) -> TerrainKeyed
    ensures { result ≡ Format.keyed_out (Grid.checked (Records.header_of header) row col) }
{
    let h = crate::records::header_of(header);
    keyed_out(h.checked(row, col))
}

pub fn terrain_header_origin(header: TerrainHeader, key: TerrainKey) -> TerrainOrigin
    ensures { result ≡ Format.origin_out (Grid.origin (Records.header_of header) (Records.key_of key)) }
{
    let h = crate::records::header_of(header);
    let answer = h.origin(crate::records::key_of(key));
    match answer {
        Ok(c) => TerrainOrigin {
            number: 0,
            south: c.south,
            west: c.west,
        },
        Err(n) => TerrainOrigin {
            number: n.number(),
            south: 0,
            west: 0,
        },
    }
}

pub fn terrain_header_entry(header: TerrainHeader, key: TerrainKey) -> TerrainOffset
    ensures { result ≡ Format.offset_out (Grid.entry (Records.header_of header) (Records.key_of key)) }
{
    let h = crate::records::header_of(header);
    let answer = h.entry(crate::records::key_of(key));
    match answer {
        Ok(at) => TerrainOffset { number: 0, at },
        Err(n) => TerrainOffset {
            number: n.number(),
            at: 0,
        },
    }
}

pub fn terrain_header_locate(header: TerrainHeader, entry: &[u8; 8]) -> TerrainLocated
    ensures { result ≡ Format.located_out (Grid.locate (Records.header_of header) entry.now) }
{
    let h = crate::records::header_of(header);
    let answer = h.locate(entry);
    match answer {
        Ok(Some((offset, length))) => TerrainLocated {
            number: 0,
            offset,
            length,
        },
        Ok(None) => TerrainLocated {
            number: 256,
            offset: 0,
            length: 0,
        },
        Err(n) => TerrainLocated {
            number: n.number(),
            offset: 0,
            length: 0,
        },
    }
}

pub fn terrain_tile_parse(bytes: &[u8], key: TerrainKey, size: u32) -> TerrainTileParsed
    ensures { result ≡ Format.tile_parsed_out (Parse.parse bytes.now (Records.key_of key) size) }
{
    let answer = tile::parse(bytes, crate::records::key_of(key), size);
    match answer {
        Ok(h) => TerrainTileParsed {
            number: 0,
            key: crate::records::key_out(h.key),
            nodes: h.nodes,
            edges: h.edges,
            vertices: h.vertices,
            lon_um: h.lon_um,
        },
        Err(n) => TerrainTileParsed {
            number: n.number(),
            key: TerrainKey { row: 0, col: 0 },
            nodes: 0,
            edges: 0,
            vertices: 0,
            lon_um: 0,
        },
    }
}

pub fn terrain_tile_node(bytes: &[u8], index: u16) -> TerrainNodeRead
    ensures { result ≡ Format.node_read_out (Readers.node bytes.now index) }
{
    node_out(view::through::node(bytes, index))
}

pub fn terrain_tile_edge(bytes: &[u8], index: u16) -> TerrainEdgeRead
    ensures { result ≡ Format.edge_read_out (Readers.edge bytes.now index) }
{
    let answer = view::through::edge(bytes, index);
    match answer {
        Ok(e) => TerrainEdgeRead {
            number: 0,
            edge: crate::records::edge_out(e),
        },
        Err(n) => TerrainEdgeRead {
            number: n.number(),
            edge: crate::records::no_edge(),
        },
    }
}

pub fn terrain_tile_point(bytes: &[u8], edge: TerrainEdge, index: usize) -> TerrainNodeRead
    ensures { result ≡ Format.node_read_out (Readers.point bytes.now (Records.edge_of edge) index) }
{
    let e = crate::records::edge_of(edge);
    node_out(view::through::point(bytes, e, index))
}

pub fn terrain_tile_incident(bytes: &[u8], node: u16) -> TerrainEntries
    ensures { result ≡ Format.entries_out (Readers.incident bytes.now node) }
{
    let answer = view::through::incident(bytes, node);
    match answer {
        Ok(entries) => TerrainEntries {
            number: 0,
            start: entries.start,
            end: entries.end,
        },
        Err(n) => TerrainEntries {
            number: n.number(),
            start: 0,
            end: 0,
        },
    }
}

pub fn terrain_tile_entry(bytes: &[u8], entry: u32) -> TerrainEntryRead
    ensures { result ≡ Format.entry_read_out (Readers.incident_entry bytes.now entry) }
{
    let answer = view::through::incident_entry(bytes, entry);
    match answer {
        Ok(i) => TerrainEntryRead {
            number: 0,
            edge: i.edge,
            ends: i.ends,
        },
        Err(n) => TerrainEntryRead {
            number: n.number(),
            edge: 0,
            ends: false,
        },
    }
}

pub fn terrain_tile_node_at(bytes: &[u8], x: u16, y: u16) -> TerrainFound
    ensures { result ≡ Format.found_out (Readers.node_at bytes.now x y) }
{
    let answer = view::through::node_at(bytes, x, y);
    match answer {
        Some(index) => TerrainFound { number: 0, index },
        None => TerrainFound {
            number: 256,
            index: 0,
        },
    }
}
