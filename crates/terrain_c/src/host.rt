// The engine's calls.
ghost use Rattle.std.specs.Prelude.{◌≡◌};
ghost use Rattle.engine.specs.Fixes as Fixes;
ghost use Rattle.terrain.specs.Host as Host;

use terrain::host::{AheadTold, CountTold, FixGiven, HeaderTold, HeadingTold, StepTold};

// A new engine over the arena, which follows the road for `horizon_m`, at most 10 km.
#[unsafe(no_mangle)]
pub extern "C" fn terrain_new(engine: &mut [u32; words::WORDS], arena: &[u8], horizon_m: f32)
    ensures { engine.new ≡ Host.new arena.now horizon_m }
{
    terrain::host::terrain_new(engine, arena, horizon_m);
}

// A fix of 1e-7 degrees, cut toward zero.
#[unsafe(no_mangle)]
pub extern "C" fn terrain_from_e7(lat_e7: i32, lon_e7: i32, at_ms: u64) -> FixGiven
    ensures { result ≡ Host.given (Fixes.from_e7 lat_e7 lon_e7 at_ms) }
{
    terrain::host::terrain_from_e7(lat_e7, lon_e7, at_ms)
}

// A new fix: 0, 8 or 12.
#[unsafe(no_mangle)]
pub extern "C" fn terrain_fix(
    engine: &mut [u32; words::WORDS],
    arena: &[u8],
    lat: i32,
    lon: i32,
    at_ms: u64,
) -> u32
    ensures value { result ≡ (Host.fix engine.old arena.now (Host.fix_of lat lon at_ms)).answer }
    ensures engine_after { engine.new ≡ (Host.fix engine.old arena.now (Host.fix_of lat lon at_ms)).words }
{
    terrain::host::terrain_fix(engine, arena, lat, lon, at_ms)
}

// The fixes stopped: 0 or 12.
#[unsafe(no_mangle)]
pub extern "C" fn terrain_lost(engine: &mut [u32; words::WORDS], arena: &[u8]) -> u32
    ensures value { result ≡ (Host.lost engine.old arena.now).answer }
    ensures engine_after { engine.new ≡ (Host.lost engine.old arena.now).words }
{
    terrain::host::terrain_lost(engine, arena)
}

// The pack was written anew: 0 or 12.
#[unsafe(no_mangle)]
pub extern "C" fn terrain_reset(engine: &mut [u32; words::WORDS], arena: &[u8]) -> u32
    ensures value { result ≡ (Host.reset engine.old arena.now).answer }
    ensures engine_after { engine.new ≡ (Host.reset engine.old arena.now).words }
{
    terrain::host::terrain_reset(engine, arena)
}

// One bounded unit of work.
#[unsafe(no_mangle)]
pub extern "C" fn terrain_step(engine: &mut [u32; words::WORDS], arena: &[u8]) -> StepTold
    ensures value { result ≡ (Host.step engine.old arena.now).answer }
    ensures engine_after { engine.new ≡ (Host.step engine.old arena.now).words }
{
    terrain::host::terrain_step(engine, arena)
}

// The open fetch answered: by its bytes with failure 0, or by failure 1 (missed) or 2 (past the pack's end).
#[unsafe(no_mangle)]
pub extern "C" fn terrain_deliver(
    engine: &mut [u32; words::WORDS],
    arena: &mut [u8],
    failure: u32,
    bytes: &[u8],
) -> StepTold
    ensures value { result ≡ (Host.deliver engine.old arena.old failure bytes.now).answer }
    ensures engine_after { engine.new ≡ (Host.deliver engine.old arena.old failure bytes.now).words }
    ensures arena_after { arena.new ≡ (Host.deliver engine.old arena.old failure bytes.now).arena }
{
    terrain::host::terrain_deliver(engine, arena, failure, bytes)
}

// One step over a pack that is lent whole.
#[unsafe(no_mangle)]
pub extern "C" fn terrain_step_from(
    engine: &mut [u32; words::WORDS],
    arena: &mut [u8],
    pack: &[u8],
) -> StepTold
    ensures value { result ≡ (Host.step_from engine.old arena.old pack.now).answer }
    ensures engine_after { engine.new ≡ (Host.step_from engine.old arena.old pack.now).words }
    ensures arena_after { arena.new ≡ (Host.step_from engine.old arena.old pack.now).arena }
{
    terrain::host::terrain_step_from(engine, arena, pack)
}

// The road ahead as it was published last; refused, an empty one.
#[unsafe(no_mangle)]
pub extern "C" fn terrain_ahead(engine: &[u32; words::WORDS], arena: &[u8]) -> AheadTold
    ensures { result ≡ Host.ahead engine.now arena.now }
{
    terrain::host::terrain_ahead(engine, arena)
}

// The pack's header, once it was read.
#[unsafe(no_mangle)]
pub extern "C" fn terrain_header(engine: &[u32; words::WORDS], arena: &[u8]) -> HeaderTold
    ensures { result ≡ Host.header engine.now arena.now }
{
    terrain::host::terrain_header(engine, arena)
}

// The bearing of travel, if the rider moved lately.
#[unsafe(no_mangle)]
pub extern "C" fn terrain_heading(engine: &[u32; words::WORDS], arena: &[u8]) -> HeadingTold
    ensures { result ≡ Host.heading engine.now arena.now }
{
    terrain::host::terrain_heading(engine, arena)
}

// Tiles read since start.
#[unsafe(no_mangle)]
pub extern "C" fn terrain_loads(engine: &[u32; words::WORDS], arena: &[u8]) -> CountTold
    ensures { result ≡ Host.loads engine.now arena.now }
{
    terrain::host::terrain_loads(engine, arena)
}

// Steps that did work since start.
#[unsafe(no_mangle)]
pub extern "C" fn terrain_steps(engine: &[u32; words::WORDS], arena: &[u8]) -> CountTold
    ensures { result ≡ Host.steps engine.now arena.now }
{
    terrain::host::terrain_steps(engine, arena)
}
