// The leaves for other languages: sums, numbers, angles.
ghost use Rattle.std.specs.Prelude.{◌≡◌, pos};
ghost use Rattle.std.specs.Float.{binary32};
ghost use Rattle.std.specs.Float.Ieee.{of_int, to_signed, to_unsigned};
ghost use Rattle.crc.specs.Fcs as Fcs;
ghost use Rattle.num.specs.Cast as Cast;
ghost use Rattle.num.specs.Convert as Convert;
ghost use Rattle.num.specs.Order as Order;
ghost use Rattle.num.specs.Root as Root;
ghost use Rattle.angle.specs.Bearing as Bearing;
ghost use Rattle.angle.specs.Cosine as Cosine;
ghost use Rattle.terrain.specs.Answers.{sign, flag, degrees_out};

// Degrees clockwise from north, 0 to 360; or the refusal's number, and 0.
#[repr(C)]
#[derive(Clone, Copy)]
pub struct TerrainDegrees {
    pub number: u32,
    pub degrees: f32,
}

pub fn terrain_crc32(bytes: &[u8]) -> u32
    ensures { result ≡ Fcs.crc32 bytes.now }
{
    crc::crc32(bytes)
}

pub fn terrain_crc32_skipping(bytes: &[u8], at: usize) -> u32
    ensures { result ≡ Fcs.crc32_skipping bytes.now at }
{
    crc::crc32_skipping(bytes, at)
}

pub fn terrain_f32_of_i32(z: i32) -> f32
    ensures { result ≡ of_int binary32 z }
{
    num::convert::f32_of_i32(z)
}

pub fn terrain_f32_of_u32(n: u32) -> f32
    ensures { result ≡ of_int binary32 (pos n) }
{
    num::convert::f32_of_u32(n)
}

pub fn terrain_f32_of_usize(n: usize) -> f32
    ensures { result ≡ of_int binary32 (pos n) }
{
    num::convert::f32_of_usize(n)
}

pub fn terrain_f32_of_f64(x: f64) -> f32
    ensures { result ≡ Convert.narrow x }
{
    num::convert::f32_of_f64(x)
}

pub fn terrain_i32_of_f32(x: f32) -> i32
    ensures { result ≡ to_signed 31 x }
{
    num::cast::i32_of_f32(x)
}

pub fn terrain_u32_of_f32(x: f32) -> u32
    ensures { result ≡ to_unsigned 32 x }
{
    num::cast::u32_of_f32(x)
}

pub fn terrain_u8_of_f32(x: f32) -> u32
    ensures { result ≡ to_unsigned 8 x }
{
    num::cast::u8_of_f32(x) as u32
}

pub fn terrain_i16_of_f32(x: f32) -> i32
    ensures { result ≡ to_signed 15 x }
{
    num::cast::i16_of_f32(x) as i32
}

pub fn terrain_i16_of_i32(z: i32) -> i32
    ensures { result ≡ Cast.low16 z }
{
    num::cast::i16_of_i32(z) as i32
}

pub fn terrain_u32_of_i32(z: i32) -> u32
    ensures { result ≡ Cast.bits32 z }
{
    num::cast::u32_of_i32(z)
}

pub fn terrain_min(a: f32, b: f32) -> f32
    ensures { result ≡ Order.min a b }
{
    num::order::min(a, b)
}

pub fn terrain_max(a: f32, b: f32) -> f32
    ensures { result ≡ Order.max a b }
{
    num::order::max(a, b)
}

pub fn terrain_clamp(x: f32, lo: f32, hi: f32) -> f32
    ensures { result ≡ Order.clamp x lo hi }
{
    num::order::clamp(x, lo, hi)
}

pub fn terrain_fabs(x: f32) -> f32
    ensures { result ≡ Order.fabsf x }
{
    num::order::fabsf(x)
}

// -1, 0 or 1.
pub fn terrain_total_cmp(a: f32, b: f32) -> i32
    ensures { result ≡ sign (Order.total_cmp a b) }
{
    let order = num::order::total_cmp(a, b);
    match order {
        std::cmp::Ordering::Less => -1,
        std::cmp::Ordering::Equal => 0,
        std::cmp::Ordering::Greater => 1,
    }
}

// 1 or 0.
pub fn terrain_is_finite(x: f32) -> u32
    ensures { result ≡ flag (Order.is_finite x) }
{
    if num::order::is_finite(x) {
        return 1;
    }
    0
}

pub fn terrain_sqrt(x: f32) -> f32
    ensures { result ≡ Root.square_root binary32 x }
{
    num::root::sqrt(x)
}

pub fn terrain_bearing(east: f32, north: f32) -> TerrainDegrees
    ensures { result ≡ degrees_out (Bearing.bearing east north) }
{
    let answer = angle::bearing(east, north);
    match answer {
        Ok(degrees) => TerrainDegrees { number: 0, degrees },
        Err(n) => TerrainDegrees {
            number: n.number(),
            degrees: 0.0,
        },
    }
}

pub fn terrain_lon_scale_um(lat: i32) -> u32
    ensures { result ≡ Cosine.lon_scale_um lat }
{
    angle::lon_scale_um(lat)
}
