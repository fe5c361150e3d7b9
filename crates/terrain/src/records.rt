// The records that cross to other languages by value: plain structs of the fields' own widths, so that nothing is cut; and the library's own records
// from them and back.
ghost use Rattle.std.specs.Prelude.{◌≡◌};
ghost use Rattle.terrain.specs.Records as Records;

use geo::{Metres, Point};
use pack::{Header, TileKey};
use tile::Edge;

#[repr(C)]
#[derive(Clone, Copy)]
pub struct TerrainHeader {
    pub tile: u32,
    pub south: i32,
    pub west: i32,
    pub rows: u16,
    pub cols: u16,
    pub directory: u32,
    pub data: u32,
    pub total: u32,
    pub tiles: u32,
    pub created: u64,
    pub attribution_offset: u32,
    pub attribution_len: u32,
}

#[repr(C)]
#[derive(Clone, Copy)]
pub struct TerrainKey {
    pub row: u16,
    pub col: u16,
}

#[repr(C)]
#[derive(Clone, Copy)]
pub struct TerrainNode {
    pub x: u16,
    pub y: u16,
    pub z: u16,
}

#[repr(C)]
#[derive(Clone, Copy)]
pub struct TerrainEdge {
    pub from: u16,
    pub to: u16,
    pub first_vertex: u32,
    pub vertices: u16,
    pub class: u8,
    pub flags: u8,
    pub group: u16,
}

#[repr(C)]
#[derive(Clone, Copy)]
pub struct TerrainPoint {
    pub lat: i32,
    pub lon: i32,
}

#[repr(C)]
#[derive(Clone, Copy)]
pub struct TerrainMetres {
    pub east: f32,
    pub north: f32,
}

pub fn header_of(h: TerrainHeader) -> Header
    ensures { result ≡ Records.header_of h }
{
    Header {
        tile: h.tile,
        south: h.south,
        west: h.west,
        rows: h.rows,
        cols: h.cols,
        directory: h.directory,
        data: h.data,
        total: h.total,
        tiles: h.tiles,
        created: h.created,
        attribution_offset: h.attribution_offset,
        attribution_len: h.attribution_len,
    }
}

pub fn header_out(h: Header) -> TerrainHeader
    ensures { result ≡ Records.header_out h }
{
    TerrainHeader {
        tile: h.tile,
        south: h.south,
        west: h.west,
        rows: h.rows,
        cols: h.cols,
        directory: h.directory,
        data: h.data,
        total: h.total,
        tiles: h.tiles,
        created: h.created,
        attribution_offset: h.attribution_offset,
        attribution_len: h.attribution_len,
    }
}

pub fn key_of(k: TerrainKey) -> TileKey
    ensures { result ≡ Records.key_of k }
{
    TileKey {
        row: k.row,
        col: k.col,
    }
}

pub fn key_out(k: TileKey) -> TerrainKey
    ensures { result ≡ Records.key_out k }
{
    TerrainKey {
        row: k.row,
        col: k.col,
    }
}

pub fn edge_of(e: TerrainEdge) -> Edge
    ensures { result ≡ Records.edge_of e }
{
    Edge {
        from: e.from,
        to: e.to,
        first_vertex: e.first_vertex,
        vertices: e.vertices,
        class: e.class,
        flags: e.flags,
        group: e.group,
    }
}

pub fn edge_out(e: Edge) -> TerrainEdge
    ensures { result ≡ Records.edge_out e }
{
    TerrainEdge {
        from: e.from,
        to: e.to,
        first_vertex: e.first_vertex,
        vertices: e.vertices,
        class: e.class,
        flags: e.flags,
        group: e.group,
    }
}

// Where there is none.
pub fn no_edge() -> TerrainEdge
    ensures { result ≡ Records.no_edge }
{
    TerrainEdge {
        from: 0,
        to: 0,
        first_vertex: 0,
        vertices: 0,
        class: 0,
        flags: 0,
        group: 0,
    }
}

pub fn point_of(p: TerrainPoint) -> Point
    ensures { result ≡ Records.point_of p }
{
    Point {
        lat: p.lat,
        lon: p.lon,
    }
}

pub fn metres_of(m: TerrainMetres) -> Metres
    ensures { result ≡ Records.metres_of m }
{
    Metres {
        east: m.east,
        north: m.north,
    }
}
