// An engine from its words, piece by piece. What a field can't hold is cut, and a tag that no variant has is the first one's: `words::accepted` then sees that the words of
// what was read are others, and refuses them.
ghost use Rattle.std.specs.Prelude.{◌≡◌, ◌+◌, ◌%◌, ◌≤◌};
ghost use Rattle.engine.specs.Summaries.{summary_of};
ghost use Rattle.words.specs.Words as Words;

use cache::{Cache, Loading, Pages, Part, Pending, Ring, Slot};
use engine::summary::Summary;
use engine::{Ahead, Due, Engine, Fix, Follower, Phase, Places, Shared, Sight};
use geo::Point;
use matcher::{Heading, Matched, Matcher};
use pack::{Header, TileKey};
use predict::End;
use tile::TileId;

// ---- numbers

pub fn short(n: u32) -> u16
    ensures { result ≡ n % 65536 }
{
    (n % 65536) as u16
}

pub fn byte(n: u32) -> u8
    ensures { result ≡ n % 256 }
{
    (n % 256) as u8
}

pub(crate) fn size(n: u32) -> usize
    ensures { result ≡ n }
{
    n as usize
}

// Two words, the low one first.
pub(crate) fn long(low: u32, high: u32) -> u64
    ensures { result ≡ Words.long_of low high }
{
    (low as u64) + (high as u64) * 4294967296
}

// The float of a pattern; every not-a-number is one.
pub fn float(pattern: u32) -> f32
    ensures { result ≡ Words.float_of pattern }
{
    if 2139095040 < pattern % 2147483648 {
        return 0.0 / 0.0;
    }
    f32::from_bits(pattern)
}

// Row and column.
fn key(n: u32) -> TileKey
    ensures { result ≡ Words.key_of n }
{
    TileKey {
        row: (n / 65536) as u16,
        col: (n % 65536) as u16,
    }
}

pub(crate) fn maybe_key(tag: u32, n: u32) -> Option<TileKey>
    ensures { result ≡ Words.maybe_key_of tag n }
{
    if tag == 1 {
        return Some(key(n));
    }
    None
}

// ---- the pack

pub(crate) fn phase(tag: u32) -> Phase
    ensures { result ≡ Words.phase_of tag }
{
    if tag == 1 {
        return Phase::Ready;
    }
    if tag == 2 {
        return Phase::Failed;
    }
    Phase::Unread
}

pub(crate) fn header(ws: &[u32; crate::WORDS]) -> Header
    ensures { result ≡ Words.header_by (Words.from ws.now 2) }
{
    Header {
        tile: ws[2],
        south: pack::bytes::signed_32(ws[3]),
        west: pack::bytes::signed_32(ws[4]),
        rows: short(ws[5]),
        cols: short(ws[6]),
        directory: ws[7],
        data: ws[8],
        total: ws[9],
        tiles: ws[10],
        created: long(ws[11], ws[12]),
        attribution_offset: ws[13],
        attribution_len: ws[14],
    }
}

// ---- the cache

// A first page is 0, a page of the run from page h on h + 1.
fn part(n: u32) -> Part
    ensures { result ≡ Words.part_of n }
{
    if n == 0 {
        return Part::Head;
    }
    Part::Of(((n - 1) % 256) as u8)
}

// The slot whose words begin at `at`.
pub(crate) fn slot(ws: &[u32; crate::WORDS], at: usize) -> Slot
    requires { at + 3 ≤ 1150 }
    ensures { result ≡ Words.slot_by (Words.from ws.now at) }
{
    let tag = ws[at];
    let key = maybe_key(tag % 2, ws[at + 1]);
    let part = part(tag / 4);
    Slot {
        key,
        len: (ws[at + 2] % 65536) as u16,
        ready: (tag / 2) % 2 == 1,
        part,
    }
}

// The slots, and when each was last used.
fn pages(ws: &[u32; crate::WORDS]) -> Pages
    ensures { result ≡ Words.pages_of ws.now 15 }
{
    let none = Slot {
        key: None,
        len: 0,
        ready: false,
        part: Part::Head,
    };
    let slots = [none; cache::MAX_PAGES];
    let used = [0u32; cache::MAX_PAGES];
    let mut g = Pages {
        slots,
        used,
        count: size(ws[399]),
        clock: ws[400],
    };
    for i in 0..cache::MAX_PAGES {
        let s = slot(ws, 15 + 3 * i);
        g.slots[i] = s;
        g.used[i] = ws[303 + i];
    }
    g
}

// The place of the ring whose words begin at `at`.
pub(crate) fn place(ws: &[u32; crate::WORDS], at: usize) -> Option<TileKey>
    requires { at + 2 ≤ 1150 }
    ensures { result ≡ Words.place_by (Words.from ws.now at) }
{
    maybe_key(ws[at], ws[at + 1])
}

fn ring(ws: &[u32; crate::WORDS]) -> Ring
    ensures { result ≡ Words.ring_of ws.now 401 }
{
    let keys = [None; cache::MISSING];
    let mut r = Ring {
        keys,
        next: size(ws[529]),
    };
    for i in 0..cache::MISSING {
        let k = place(ws, 401 + 2 * i);
        r.keys[i] = k;
    }
    r
}

pub(crate) fn loading(ws: &[u32; crate::WORDS]) -> Option<Loading>
    ensures { result ≡ Words.loading_by (Words.from ws.now 530) }
{
    if ws[530] == 1 {
        return Some(Loading {
            key: key(ws[531]),
            slot: size(ws[532]),
            offset: ws[533],
            len: ws[534],
            done: ws[535],
        });
    }
    None
}

pub(crate) fn pending(tag: u32, at: u32) -> Pending
    ensures { result ≡ Words.pending_of tag at }
{
    if tag == 1 {
        return Pending::Header;
    }
    if tag == 2 {
        return Pending::Entry(key(at));
    }
    if tag == 3 {
        return Pending::Chunk;
    }
    Pending::Nothing
}

pub(crate) fn cache(ws: &[u32; crate::WORDS]) -> Cache
    ensures { result ≡ Words.cache_of ws.now 15 }
{
    let pages = pages(ws);
    let missing = ring(ws);
    let loading = loading(ws);
    let pending = pending(ws[536], ws[537]);
    Cache {
        pages,
        missing,
        loading,
        pending,
        loads: ws[538],
    }
}

fn shared(ws: &[u32; crate::WORDS]) -> Shared
    ensures { result ≡ Words.shared_of ws.now }
{
    let phase = phase(ws[1]);
    let header = header(ws);
    let cache = cache(ws);
    Shared {
        phase,
        header,
        cache,
    }
}

// ---- the fixes

pub(crate) fn fix(ws: &[u32; crate::WORDS]) -> Option<Fix>
    ensures { result ≡ Words.fix_by (Words.from ws.now 539) }
{
    if ws[539] == 1 {
        return Some(Fix {
            lat: pack::bytes::signed_32(ws[540]),
            lon: pack::bytes::signed_32(ws[541]),
            at_ms: long(ws[542], ws[543]),
        });
    }
    None
}

// The place whose words begin at `at`.
pub(crate) fn point(ws: &[u32; crate::WORDS], at: usize) -> Point
    requires { at + 2 ≤ 1150 }
    ensures { result ≡ Words.point_by (Words.from ws.now at) }
{
    Point {
        lat: pack::bytes::signed_32(ws[at]),
        lon: pack::bytes::signed_32(ws[at + 1]),
    }
}

fn places(ws: &[u32; crate::WORDS]) -> Places
    ensures { result ≡ Words.places_of ws.now 544 }
{
    let none = Point { lat: 0, lon: 0 };
    let v = [none; 16];
    let mut h = Places {
        v,
        len: size(ws[576]),
    };
    for i in 0..16 {
        let p = point(ws, 544 + 2 * i);
        h.v[i] = p;
    }
    h
}

pub(crate) fn heading(tag: u32, degrees: u32) -> Heading
    ensures { result ≡ Words.heading_of tag degrees }
{
    if tag == 1 {
        return Heading::Degrees(float(degrees));
    }
    Heading::Nothing
}

pub(crate) fn sight(ws: &[u32; crate::WORDS]) -> Sight
    ensures { result ≡ Words.sight_of ws.now 539 }
{
    let fix = fix(ws);
    let history = places(ws);
    let heading = heading(ws[577], ws[578]);
    Sight {
        fix,
        history,
        heading,
        heading_at: long(ws[579], ws[580]),
    }
}

// ---- the match

pub fn forward(tag: u32) -> Option<bool>
    ensures { result ≡ Words.forward_of tag }
{
    if tag == 1 {
        return Some(false);
    }
    if tag == 2 {
        return Some(true);
    }
    None
}

pub fn id(at: u32, crc: u32, edges: u32) -> TileId
    ensures { result ≡ Words.id_of at crc edges }
{
    TileId {
        key: key(at),
        crc,
        edges: short(edges),
    }
}

// The match whose tag stands at `at`, and its words behind it.
fn matched(ws: &[u32; crate::WORDS], at: usize) -> Matched
    requires { at + 14 ≤ 1150 }
    ensures { result ≡ Words.matched_by (Words.from ws.now at) }
{
    let tile = id(ws[at + 1], ws[at + 2], ws[at + 3]);
    let forward = forward(ws[at + 7]);
    Matched {
        tile,
        edge: short(ws[at + 4]),
        segment: short(ws[at + 5]),
        fraction: float(ws[at + 6]),
        forward,
        offset_m: float(ws[at + 8]),
        z_dm: pack::bytes::signed_32(ws[at + 9]),
        class: byte(ws[at + 10]),
        flags: byte(ws[at + 11]),
        confidence: byte(ws[at + 12]),
        ridden_m: float(ws[at + 13]),
    }
}

// Tag and match, 14 words from `at` on.
pub(crate) fn current(ws: &[u32; crate::WORDS], at: usize) -> Option<Matched>
    requires { at + 14 ≤ 1150 }
    ensures { result ≡ Words.current_by (Words.from ws.now at) }
{
    if ws[at] == 1 {
        let found = matched(ws, at);
        return Some(found);
    }
    None
}

pub(crate) fn challenger(ws: &[u32; crate::WORDS]) -> Option<(TileId, u16, u8)>
    ensures { result ≡ Words.challenger_by (Words.from ws.now 595) }
{
    if ws[595] == 1 {
        let tile = id(ws[596], ws[597], ws[598]);
        return Some((tile, short(ws[599]), byte(ws[600])));
    }
    None
}

pub(crate) fn matcher(ws: &[u32; crate::WORDS]) -> Matcher
    ensures { result ≡ Words.matcher_of ws.now 581 }
{
    let current = current(ws, 581);
    let challenger = challenger(ws);
    Matcher {
        current,
        challenger,
        misses: byte(ws[601]),
        run_from_m: float(ws[602]),
    }
}

// ---- what is due

pub(crate) fn time(tag: u32, low: u32, high: u32) -> Option<u64>
    ensures { result ≡ Words.time_of tag low high }
{
    if tag == 1 {
        return Some(long(low, high));
    }
    None
}

pub(crate) fn due(ws: &[u32; crate::WORDS]) -> Due
    ensures { result ≡ Words.due_of ws.now 603 }
{
    let last_road = time(ws[605], ws[606], ws[607]);
    let need = maybe_key(ws[608], ws[609]);
    Due {
        matching: ws[603] == 1,
        road: ws[604] == 1,
        last_road,
        need,
        reloads: short(ws[610]),
    }
}

// ---- the road

// A height: 16 bits of a word in two's complement.
pub(crate) fn height(n: u32) -> i16
    ensures { result ≡ Words.height_of n }
{
    num::cast::i16_of_i32(pack::bytes::signed_32(n))
}

fn samples(ws: &[u32; crate::WORDS]) -> [i16; predict::MAX_SAMPLES]
    ensures { result ≡ Words.heights_of ws.now 629 501 }
{
    let mut out = [0i16; predict::MAX_SAMPLES];
    for i in 0..predict::MAX_SAMPLES {
        out[i] = height(ws[629 + i]);
    }
    out
}

fn behind(ws: &[u32; crate::WORDS]) -> [i16; predict::BEHIND_SAMPLES]
    ensures { result ≡ Words.heights_of ws.now 1131 11 }
{
    let mut out = [0i16; predict::BEHIND_SAMPLES];
    for i in 0..predict::BEHIND_SAMPLES {
        out[i] = height(ws[1131 + i]);
    }
    out
}

pub(crate) fn end(tag: u32) -> End
    ensures { result ≡ Words.end_of tag }
{
    if tag == 1 {
        return End::Fork;
    }
    if tag == 2 {
        return End::DeadEnd;
    }
    if tag == 3 {
        return End::MapEdge;
    }
    if tag == 4 {
        return End::Uncertain;
    }
    if tag == 5 {
        return End::Memory;
    }
    End::Horizon
}

pub(crate) fn ahead(ws: &[u32; crate::WORDS]) -> Ahead
    ensures { result ≡ Words.ahead_of ws.now 611 }
{
    let matched = current(ws, 614);
    let samples = samples(ws);
    let behind = behind(ws);
    let end = end(ws[1144]);
    Ahead {
        generation: ws[611],
        at_ms: long(ws[612], ws[613]),
        matched,
        start_z_dm: pack::bytes::signed_32(ws[628]),
        samples,
        len: size(ws[1130]),
        behind,
        behind_len: size(ws[1142]),
        behind_m: float(ws[1143]),
        end,
        end_m: float(ws[1145]),
        confidence: byte(ws[1146]),
    }
}

// ---- the whole

fn follower(ws: &[u32; crate::WORDS]) -> Follower
    ensures { result ≡ Words.follower_of ws.now }
{
    let sight = sight(ws);
    let matcher = matcher(ws);
    let due = due(ws);
    let ahead = ahead(ws);
    Follower {
        sight,
        matcher,
        due,
        ahead,
        failures: byte(ws[1147]),
        horizon_m: float(ws[1148]),
        steps: ws[1149],
    }
}

pub(crate) fn engine(ws: &[u32; crate::WORDS]) -> Engine
    ensures { result ≡ Words.engine_of ws.now }
{
    let shared = shared(ws);
    let follower = follower(ws);
    Engine { shared, follower }
}

// What number 12 asks of the engine beside the cache's own state, and what its plan is made of.
pub(crate) fn summary(ws: &[u32; crate::WORDS]) -> Summary
    ensures { result ≡ summary_of (Words.engine_of ws.now) }
{
    let phase = phase(ws[1]);
    let header = header(ws);
    let loading = loading(ws);
    let pending = pending(ws[536], ws[537]);
    let sight = sight(ws);
    let matcher = matcher(ws);
    let due = due(ws);
    let published = current(ws, 614);
    Summary {
        phase,
        header,
        count: size(ws[399]),
        loading,
        pending,
        sight,
        matcher,
        due,
        published,
        len: size(ws[1130]),
        behind_len: size(ws[1142]),
        failures: byte(ws[1147]),
    }
}
