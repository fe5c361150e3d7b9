// The matcher and the road by themselves.
ghost use Rattle.std.specs.Prelude.{◌≡◌};
ghost use Rattle.matcher.specs.Calls as Calls;
ghost use Rattle.terrain.specs.Records as Records;
ghost use Rattle.words.specs.Words as Words;
ghost use Rattle.terrain.specs.Roads as Roads;

use terrain::host::MatchTold;
use terrain::records::{TerrainHeader, TerrainPoint};
use terrain::roads::{
    MATCHER_WORDS, TerrainCurrent, TerrainHeading, TerrainNear, TerrainPredicted, TerrainUpdated,
};

// The tiles that a search around a fix needs: 12 for the header, 8 for the point.
#[unsafe(no_mangle)]
pub extern "C" fn terrain_nearby(header: TerrainHeader, fix: TerrainPoint) -> TerrainNear
    ensures { result ≡ Roads.near_out (Calls.nearby (Records.header_of header) (Records.point_of fix)) }
{
    terrain::roads::terrain_nearby(header, fix)
}

// The words of a matcher that has matched nothing.
#[unsafe(no_mangle)]
pub extern "C" fn terrain_matcher_reset(matcher: &mut [u32; MATCHER_WORDS])
    ensures { matcher.new ≡ Words.matcher_words Calls.reset }
{
    terrain::roads::terrain_matcher_reset(matcher);
}

// The match as it stands.
#[unsafe(no_mangle)]
pub extern "C" fn terrain_matcher_current(matcher: &[u32; MATCHER_WORDS]) -> TerrainCurrent
    ensures { result ≡ Roads.current_out (Roads.current matcher.now) }
{
    terrain::roads::terrain_matcher_current(matcher)
}

// Match one fix.
#[unsafe(no_mangle)]
pub extern "C" fn terrain_matcher_update(
    matcher: &mut [u32; MATCHER_WORDS],
    engine: &mut [u32; words::WORDS],
    arena: &[u8],
    header: TerrainHeader,
    fix: TerrainPoint,
    heading: TerrainHeading,
) -> TerrainUpdated
    ensures value { result ≡ Roads.updated_out (Roads.update matcher.old engine.old arena.now (Records.header_of header) (Records.point_of fix) heading).answer }
    ensures matcher_after { matcher.new ≡ Roads.matcher_after matcher.old engine.old arena.now (Records.header_of header) (Records.point_of fix) heading }
    ensures engine_after { engine.new ≡ Roads.engine_after matcher.old engine.old arena.now (Records.header_of header) (Records.point_of fix) heading }
{
    terrain::roads::terrain_matcher_update(matcher, engine, arena, header, fix, heading)
}

// The road from a match on, for up to `horizon_m`.
#[unsafe(no_mangle)]
pub extern "C" fn terrain_predict(
    engine: &mut [u32; words::WORDS],
    arena: &[u8],
    header: TerrainHeader,
    start: MatchTold,
    horizon_m: f32,
    samples: &mut [i16; predict::MAX_SAMPLES],
    behind: &mut [i16; predict::BEHIND_SAMPLES],
) -> TerrainPredicted
    ensures value { result ≡ Roads.predicted_out (Roads.predict engine.old arena.now (Records.header_of header) start horizon_m samples.old behind.old).predicted.answer }
    ensures engine_after { engine.new ≡ Roads.predict_after engine.old arena.now (Records.header_of header) start horizon_m samples.old behind.old }
    ensures samples_after { samples.new ≡ (Roads.predict engine.old arena.now (Records.header_of header) start horizon_m samples.old behind.old).samples }
    ensures behind_after { behind.new ≡ (Roads.predict engine.old arena.now (Records.header_of header) start horizon_m samples.old behind.old).behind }
{
    terrain::roads::terrain_predict(engine, arena, header, start, horizon_m, samples, behind)
}
