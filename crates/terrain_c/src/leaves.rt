// The leaves.
ghost use Rattle.std.specs.Prelude.{◌≡◌, pos};
ghost use Rattle.std.specs.Float.{binary32};
ghost use Rattle.std.specs.Float.Ieee.{of_int, to_signed, to_unsigned};
ghost use Rattle.crc.specs.Fcs as Fcs;
ghost use Rattle.num.specs.Cast as Cast;
ghost use Rattle.num.specs.Convert as Convert;
ghost use Rattle.num.specs.Order as Order;
ghost use Rattle.num.specs.Root as Root;
ghost use Rattle.angle.specs.Bearing as Bearing;
ghost use Rattle.angle.specs.Cosine as Cosine;
ghost use Rattle.terrain.specs.Answers.{sign, flag, degrees_out};

use terrain::leaves::TerrainDegrees;

#[unsafe(no_mangle)]
pub extern "C" fn terrain_crc32(bytes: &[u8]) -> u32
    ensures { result ≡ Fcs.crc32 bytes.now }
{
    terrain::leaves::terrain_crc32(bytes)
}

#[unsafe(no_mangle)]
pub extern "C" fn terrain_crc32_skipping(bytes: &[u8], at: usize) -> u32
    ensures { result ≡ Fcs.crc32_skipping bytes.now at }
{
    terrain::leaves::terrain_crc32_skipping(bytes, at)
}

#[unsafe(no_mangle)]
pub extern "C" fn terrain_f32_of_i32(z: i32) -> f32
    ensures { result ≡ of_int binary32 z }
{
    terrain::leaves::terrain_f32_of_i32(z)
}

#[unsafe(no_mangle)]
pub extern "C" fn terrain_f32_of_u32(n: u32) -> f32
    ensures { result ≡ of_int binary32 (pos n) }
{
    terrain::leaves::terrain_f32_of_u32(n)
}

#[unsafe(no_mangle)]
pub extern "C" fn terrain_f32_of_usize(n: usize) -> f32
    ensures { result ≡ of_int binary32 (pos n) }
{
    terrain::leaves::terrain_f32_of_usize(n)
}

#[unsafe(no_mangle)]
pub extern "C" fn terrain_f32_of_f64(x: f64) -> f32
    ensures { result ≡ Convert.narrow x }
{
    terrain::leaves::terrain_f32_of_f64(x)
}

#[unsafe(no_mangle)]
pub extern "C" fn terrain_i32_of_f32(x: f32) -> i32
    ensures { result ≡ to_signed 31 x }
{
    terrain::leaves::terrain_i32_of_f32(x)
}

#[unsafe(no_mangle)]
pub extern "C" fn terrain_u32_of_f32(x: f32) -> u32
    ensures { result ≡ to_unsigned 32 x }
{
    terrain::leaves::terrain_u32_of_f32(x)
}

#[unsafe(no_mangle)]
pub extern "C" fn terrain_u8_of_f32(x: f32) -> u32
    ensures { result ≡ to_unsigned 8 x }
{
    terrain::leaves::terrain_u8_of_f32(x)
}

#[unsafe(no_mangle)]
pub extern "C" fn terrain_i16_of_f32(x: f32) -> i32
    ensures { result ≡ to_signed 15 x }
{
    terrain::leaves::terrain_i16_of_f32(x)
}

#[unsafe(no_mangle)]
pub extern "C" fn terrain_i16_of_i32(z: i32) -> i32
    ensures { result ≡ Cast.low16 z }
{
    terrain::leaves::terrain_i16_of_i32(z)
}

#[unsafe(no_mangle)]
pub extern "C" fn terrain_u32_of_i32(z: i32) -> u32
    ensures { result ≡ Cast.bits32 z }
{
    terrain::leaves::terrain_u32_of_i32(z)
}

#[unsafe(no_mangle)]
pub extern "C" fn terrain_min(a: f32, b: f32) -> f32
    ensures { result ≡ Order.min a b }
{
    terrain::leaves::terrain_min(a, b)
}

#[unsafe(no_mangle)]
pub extern "C" fn terrain_max(a: f32, b: f32) -> f32
    ensures { result ≡ Order.max a b }
{
    terrain::leaves::terrain_max(a, b)
}

#[unsafe(no_mangle)]
pub extern "C" fn terrain_clamp(x: f32, lo: f32, hi: f32) -> f32
    ensures { result ≡ Order.clamp x lo hi }
{
    terrain::leaves::terrain_clamp(x, lo, hi)
}

#[unsafe(no_mangle)]
pub extern "C" fn terrain_fabs(x: f32) -> f32
    ensures { result ≡ Order.fabsf x }
{
    terrain::leaves::terrain_fabs(x)
}

// -1, 0 or 1.
#[unsafe(no_mangle)]
pub extern "C" fn terrain_total_cmp(a: f32, b: f32) -> i32
    ensures { result ≡ sign (Order.total_cmp a b) }
{
    terrain::leaves::terrain_total_cmp(a, b)
}

// 1 or 0.
#[unsafe(no_mangle)]
pub extern "C" fn terrain_is_finite(x: f32) -> u32
    ensures { result ≡ flag (Order.is_finite x) }
{
    terrain::leaves::terrain_is_finite(x)
}

#[unsafe(no_mangle)]
pub extern "C" fn terrain_sqrt(x: f32) -> f32
    ensures { result ≡ Root.square_root binary32 x }
{
    terrain::leaves::terrain_sqrt(x)
}

#[unsafe(no_mangle)]
pub extern "C" fn terrain_bearing(east: f32, north: f32) -> TerrainDegrees
    ensures { result ≡ degrees_out (Bearing.bearing east north) }
{
    terrain::leaves::terrain_bearing(east, north)
}

#[unsafe(no_mangle)]
pub extern "C" fn terrain_lon_scale_um(lat: i32) -> u32
    ensures { result ≡ Cosine.lon_scale_um lat }
{
    terrain::leaves::terrain_lon_scale_um(lat)
}
