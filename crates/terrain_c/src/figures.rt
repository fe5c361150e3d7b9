// The geometry.
ghost use Rattle.std.specs.Prelude.{◌≡◌};
ghost use Rattle.geo.specs.Points as Points;
ghost use Rattle.geo.specs.Flat as Flat;
ghost use Rattle.terrain.specs.Records as Records;
ghost use Rattle.terrain.specs.Figures as Figures;

use terrain::figures::{TerrainEdgePoint, TerrainFigure, TerrainMetresRead, TerrainProjectedRead};
use terrain::records::{TerrainEdge, TerrainHeader, TerrainMetres, TerrainPoint};

#[unsafe(no_mangle)]
pub extern "C" fn terrain_edge_point(
    header: TerrainHeader,
    bytes: &[u8],
    edge: TerrainEdge,
    index: usize,
) -> TerrainEdgePoint
    ensures { result ≡ Figures.edge_point_out (Points.edge_point (Records.header_of header) bytes.now (Records.edge_of edge) index) }
{
    terrain::figures::terrain_edge_point(header, bytes, edge, index)
}

#[unsafe(no_mangle)]
pub extern "C" fn terrain_metres_from(
    point: TerrainPoint,
    origin: TerrainPoint,
    lon_um: u32,
) -> TerrainMetresRead
    ensures { result ≡ Figures.metres_read_out (Flat.metres_from (Records.point_of point) (Records.point_of origin) lon_um) }
{
    terrain::figures::terrain_metres_from(point, origin, lon_um)
}

#[unsafe(no_mangle)]
pub extern "C" fn terrain_length(east: f32, north: f32) -> TerrainFigure
    ensures { result ≡ Figures.figure_out (Flat.length east north) }
{
    terrain::figures::terrain_length(east, north)
}

#[unsafe(no_mangle)]
pub extern "C" fn terrain_turn(from: f32, to: f32) -> TerrainFigure
    ensures { result ≡ Figures.figure_out (Flat.turn from to) }
{
    terrain::figures::terrain_turn(from, to)
}

#[unsafe(no_mangle)]
pub extern "C" fn terrain_project(
    p: TerrainMetres,
    a: TerrainMetres,
    b: TerrainMetres,
) -> TerrainProjectedRead
    ensures { result ≡ Figures.projected_read_out (Flat.project (Records.metres_of p) (Records.metres_of a) (Records.metres_of b)) }
{
    terrain::figures::terrain_project(p, a, b)
}
