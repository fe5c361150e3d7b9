// The geometry for other languages. Each answer is a struct by value that begins with a number: 0 where the result follows, else the refusal's, and zeros
// follow.
ghost use Rattle.std.specs.Prelude.{◌≡◌};
ghost use Rattle.geo.specs.Points as Points;
ghost use Rattle.geo.specs.Flat as Flat;
ghost use Rattle.terrain.specs.Records as Records;
ghost use Rattle.terrain.specs.Figures as Figures;

use crate::records::{TerrainEdge, TerrainHeader, TerrainMetres, TerrainPoint};
use refusal::Refusal;

// A point of an edge with its elevation in decimetres.
#[repr(C)]
#[derive(Clone, Copy)]
pub struct TerrainEdgePoint {
    pub number: u32,
    pub point: TerrainPoint,
    pub z_dm: i32,
}

#[repr(C)]
#[derive(Clone, Copy)]
pub struct TerrainMetresRead {
    pub number: u32,
    pub metres: TerrainMetres,
}

// A length or a turn.
#[repr(C)]
#[derive(Clone, Copy)]
pub struct TerrainFigure {
    pub number: u32,
    pub value: f32,
}

#[repr(C)]
#[derive(Clone, Copy)]
pub struct TerrainProjectedRead {
    pub number: u32,
    pub fraction: f32,
    pub distance: f32,
}

fn figure_out(answer: Result<f32, Refusal>) -> TerrainFigure
    ensures { result ≡ Figures.figure_out answer }
{
    match answer {
        Ok(value) => TerrainFigure { number: 0, value },
        Err(n) => TerrainFigure {
            number: n.number(),
            value: 0.0,
        },
    }
}

pub fn terrain_edge_point(
    header: TerrainHeader,
    bytes: &[u8],
    edge: TerrainEdge,
    index: usize,
) -> TerrainEdgePoint
    ensures { result ≡ Figures.edge_point_out (Points.edge_point (Records.header_of header) bytes.now (Records.edge_of edge) index) }
{
    let h = crate::records::header_of(header);
    let e = crate::records::edge_of(edge);
    let answer = view::through::edge_point(bytes, h, e, index);
    match answer {
        Ok((p, z)) => TerrainEdgePoint {
            number: 0,
            point: TerrainPoint {
                lat: p.lat,
                lon: p.lon,
            },
            z_dm: z,
        },
        Err(n) => TerrainEdgePoint {
            number: n.number(),
            point: TerrainPoint { lat: 0, lon: 0 },
            z_dm: 0,
        },
    }
}

pub fn terrain_metres_from(
    point: TerrainPoint,
    origin: TerrainPoint,
    lon_um: u32,
) -> TerrainMetresRead
    ensures { result ≡ Figures.metres_read_out (Flat.metres_from (Records.point_of point) (Records.point_of origin) lon_um) }
{
    let p = crate::records::point_of(point);
    let answer = p.metres_from(crate::records::point_of(origin), lon_um);
    match answer {
        Ok(m) => TerrainMetresRead {
            number: 0,
            metres: TerrainMetres {
                east: m.east,
                north: m.north,
            },
        },
        Err(n) => TerrainMetresRead {
            number: n.number(),
            metres: TerrainMetres {
                east: 0.0,
                north: 0.0,
            },
        },
    }
}

pub fn terrain_length(east: f32, north: f32) -> TerrainFigure
    ensures { result ≡ Figures.figure_out (Flat.length east north) }
{
    figure_out(geo::length(east, north))
}

pub fn terrain_turn(from: f32, to: f32) -> TerrainFigure
    ensures { result ≡ Figures.figure_out (Flat.turn from to) }
{
    figure_out(geo::turn(from, to))
}

pub fn terrain_project(p: TerrainMetres, a: TerrainMetres, b: TerrainMetres) -> TerrainProjectedRead
    ensures { result ≡ Figures.projected_read_out (Flat.project (Records.metres_of p) (Records.metres_of a) (Records.metres_of b)) }
{
    let first = crate::records::metres_of(a);
    let second = crate::records::metres_of(b);
    let answer = geo::project(crate::records::metres_of(p), first, second);
    match answer {
        Ok(r) => TerrainProjectedRead {
            number: 0,
            fraction: r.fraction,
            distance: r.distance,
        },
        Err(n) => TerrainProjectedRead {
            number: n.number(),
            fraction: 0.0,
            distance: 0.0,
        },
    }
}
