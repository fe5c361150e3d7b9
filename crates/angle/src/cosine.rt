// The cosine of a single float in radians, worked out in doubles and rounded to a single float once: libm's steps for angles within a turn.
ghost use Rattle.std.specs.Prelude.{◌≡◌};
ghost use Rattle.angle.specs.Cosine as Cosine;

// cos y near 0.
#[tactic(auto, unfolding(crate::specs::Cosine::cos_near))]
fn cos_near(y: f64) -> f64
    ensures { result ≡ Cosine.cos_near y }
{
    let z = y * y;
    let w = z * z;
    let r = z * 0.0000243904487962774090654 - 0.00138867637746099294692;
    1.0 - z * 0.499999997251031003120 + w * 0.0416666233237390631894 + w * z * r
}

// sin y near 0.
#[tactic(auto, unfolding(crate::specs::Cosine::sin_near))]
fn sin_near(y: f64) -> f64
    ensures { result ≡ Cosine.sin_near y }
{
    let z = y * y;
    let w = z * z;
    let r = z * 0.0000027183114939898219064 - 0.000198393348360966317347;
    let s = z * y;
    y + s * (z * 0.0083333293858894631756 - 0.166666666416265235595) + s * w * r
}

// libm's cosf: by the nearest whole number of quarter turns, and what is left beyond it.
#[tactic(auto, using(std::proofs::lemmas::Bool::Decides::nat_tests), unfolding(crate::specs::Cosine::cosine))]
pub fn cosine(x: f32) -> f32
    ensures { result ≡ Cosine.cosine x }
{
    let t = std::num::f32_to_f64_with_nan(num::order::fabsf(x));
    let n = num::cast::u64_of_f64(t * 0.6366197723675814 + 0.5);
    let y = std::num::nearest_u64_to_f64(n) * 1.5707963267948966 - t;
    match n % 4 {
        0 => num::convert::f32_of_f64(cos_near(y)),
        1 => num::convert::f32_of_f64(sin_near(y)),
        2 => -num::convert::f32_of_f64(cos_near(y)),
        _ => -num::convert::f32_of_f64(sin_near(y)),
    }
}
