// The two angle functions that stand in for libm's: the bearing of a vector, and the scale of a degree of longitude by the cosine.
// docs/ANGLES.md has their steps.
#![tactic(auto)]

mod circle;
mod cosine;

ghost use Rattle.std.specs.Prelude.{◌≡◌};
ghost use Rattle.angle.specs.Bearing as Bearing;
ghost use Rattle.angle.specs.Cosine as Cosine;

use refusal::Refusal;

// geo.rs: the compass bearing of (east, north). A figure that is not finite is 8.
pub fn bearing(east: f32, north: f32) -> Result<f32, Refusal>
    ensures { result ≡ Bearing.bearing east north }
{
    circle::bearing(east, north)
}

// engine.rs: micrometres per micro-degree of longitude at `lat` micro-degrees.
#[tactic(auto, unfolding(crate::specs::Cosine::lon_scale_um))]
pub fn lon_scale_um(lat: i32) -> u32
    ensures { result ≡ Cosine.lon_scale_um lat }
{
    let degrees = num::convert::f32_of_i32(lat) * 0.000001;
    let radians = degrees * 0.017453292;
    num::cast::u32_of_f32(111195.0 * cosine::cosine(radians))
}
