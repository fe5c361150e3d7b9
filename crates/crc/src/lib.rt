// CRC-32 as ITU-T V.42 has it: `crc32`, `crc_update` and `crc32_skipping` of the Rust's tile.rs. Few octets go by a table of half octets, four octets a turn. Many go by
// words of 64 bits with no table, the skipped octets too where they begin a word, and only the last 40 to 47 octets by the table. The table is small because a const
// is written out on the stack where it is used.
#![tactic(auto)]

ghost use Rattle.std.specs.Prelude.{◌≡◌, [], ◌∷◌, ◌++◌, ◌+◌, ◌-◌, ◌%◌, ◌<◌, ◌≤◌, min, length, take, drop};
ghost use Rattle.crc.specs.Fcs as Fcs;
ghost use Rattle.crc.specs.Fcs.{bits, message, remainder, zeros};
ghost use Rattle.crc.specs.Register.{half, Rule, Takes, TakesWord, Turns, Spreads, SpreadsOn, Ends};

// What the register makes of each half octet with 0 to 7 half octets of zero behind it: eight tables of 16, one behind the other.
const TABLE: [u32; 128] = [
    0, 498536548, 997073096, 651767980, 1994146192, 1802195444, 1303535960, 1342533948, 3988292384,
    4027552580, 3604390888, 3412177804, 2607071920, 2262029012, 2685067896, 3183342108, 0,
    1996959894, 3993919788, 2567524794, 124634137, 1886057615, 3915621685, 2657392035, 249268274,
    2044508324, 3772115230, 2547177864, 162941995, 2125561021, 3887607047, 2428444049, 0,
    1254232657, 2508465314, 3745920755, 4034481925, 3132841300, 1711106983, 792689142, 998479947,
    1900120602, 2919742697, 3838160568, 3422213966, 2167981343, 1585378284, 347922877, 0,
    421212481, 842424962, 724390851, 1684849924, 2105013317, 1448781702, 1329698503, 3369699848,
    3519200073, 4210026634, 3824474571, 2897563404, 3048111693, 2659397006, 2274893007, 0,
    472294256, 944588512, 611050896, 1889177024, 1824272048, 1222101792, 1425107024, 3778354048,
    4245928176, 3648544096, 3311336976, 2444203584, 2374579504, 2850214048, 3049550800, 0,
    29518391, 59036782, 38190681, 118073564, 114017003, 76381362, 89069189, 236147128, 265370511,
    228034006, 206958561, 152762724, 148411219, 178138378, 190596925, 0, 1343838111, 2687676222,
    4029413537, 2601801789, 3406630818, 992409347, 1799331996, 3982079547, 3175145892, 1298864389,
    494030490, 1984818694, 643086745, 3598663992, 2254837415, 0, 3099354981, 2852767883, 313896942,
    2405603159, 937357362, 627793884, 2648127673, 3316918511, 2097696650, 1874714724, 3607201537,
    1255587768, 4067088605, 3772741427, 1482887254,
];

// What the table has for the low half octet of `v`, with `k` half octets of zero behind it.
fn entry(table: &[u32; 128], k: usize, v: u32) -> u32
    requires rule { Rule table.now }
    requires k_bound { k < 8 }
    ensures { bits 32 result ≡ half k v }
{
    table[k * 16 + (v & 15) as usize]
}

// The remainder for 32 bits: the sum of an entry for each half octet, by how many are behind it.
fn crc_four(table: &[u32; 128], v: u32) -> u32
    requires { Rule table.now }
    ensures { bits 32 result ≡ remainder (bits 32 v ++ zeros 32) }
{
    let mut t = entry(table, 0, v >> 28);
    t = entry(table, 1, v >> 24) ^ t;
    t = entry(table, 2, v >> 20) ^ t;
    t = entry(table, 3, v >> 16) ^ t;
    t = entry(table, 4, v >> 12) ^ t;
    t = entry(table, 5, v >> 8) ^ t;
    t = entry(table, 6, v >> 4) ^ t;
    entry(table, 7, v) ^ t
}

// The register after one octet.
fn crc_octet(table: &[u32; 128], c: u32, o: u8) -> u32
    requires { Rule table.now }
    ensures { Takes c (o ∷ []) result }
{
    let v = c ^ (o as u32);
    let low = entry(table, 1, v);
    let high = entry(table, 0, v >> 4);
    (low ^ high) ^ (c >> 8)
}

// The register after the octets, one a turn.
fn crc_octets(table: &[u32; 128], value: u32, bytes: &[u8]) -> u32
    requires { Rule table.now }
    ensures { Takes value bytes.now result }
{
    let mut c = value;
    for octet in bytes {
        c = crc_octet(table, c, *octet);
    }
    c
}

// The four octets at `i` as a number, the first one lowest: in that order their bits are the message's.
fn four_at(bytes: &[u8], i: usize) -> u32
    requires { i + 4 ≤ length bytes.now }
    ensures { bits 32 result ≡ message (take 4 (drop i bytes.now)) }
{
    u32::from_le_bytes([bytes[i], bytes[i + 1], bytes[i + 2], bytes[i + 3]])
}

// The eight octets at `i` as a number.
fn word_at(bytes: &[u8], i: usize) -> u64
    requires { i + 8 ≤ length bytes.now }
    ensures { bits 64 result ≡ message (take 8 (drop i bytes.now)) }
{
    let low = four_at(bytes, i);
    let high = four_at(bytes, i + 4);
    (low as u64) + (high as u64) * 4294967296
}

// The register after the octets, four a turn, and the rest one a turn.
fn crc_few(table: &[u32; 128], value: u32, bytes: &[u8]) -> u32
    requires { Rule table.now }
    ensures { Takes value bytes.now result }
{
    let turns = bytes.len() / 4;
    let mut c = value;
    for turn in 0..turns {
        c = crc_four(table, c ^ four_at(bytes, turn * 4));
    }
    crc_octets(table, c, &bytes[turns * 4..])
}

// The register after 64 bits.
fn crc_word(table: &[u32; 128], c: u32, w: u64) -> u32
    requires { Rule table.now }
    ensures { TakesWord c w result }
{
    let low = (w & 0xffffffff) as u32;
    let t = crc_four(table, c ^ low);
    crc_four(table, t ^ ((w >> 32) as u32))
}

// Five words to be added to the next five of the message: what stands for all that was before them.
#[derive(Clone, Copy, PartialEq, Eq, Debug)]
struct Pending {
    first: u64,
    second: u64,
    third: u64,
    fourth: u64,
    fifth: u64,
}

// A word more of the message. The generator divides x^300 + x^155 + x^117 + x^89 + 1, so a term is as good as those 145, 183, 211 and 300 places behind it: the
// word is taken away and added at these places, which is 81, 119, 147 and 236 places into the words that follow.
fn turned(p: Pending, x: u64) -> Pending
    ensures { Turns p x result }
{
    let w = p.first ^ x;
    Pending {
        first: p.second,
        second: (w << 17) ^ ((w << 55) ^ p.third),
        third: (w >> 47) ^ ((w >> 9) ^ ((w << 19) ^ p.fourth)),
        fourth: (w >> 45) ^ ((w << 44) ^ p.fifth),
        fifth: w >> 20,
    }
}

// What is pending after whole words, with `p` pending before them.
fn spread_on(p: Pending, bytes: &[u8]) -> Pending
    requires { length bytes.now % 8 ≡ 0 }
    ensures { SpreadsOn p bytes.now result }
{
    let mut q = p;
    for word in 0..bytes.len() / 8 {
        q = turned(q, word_at(bytes, word * 8));
    }
    q
}

// What is pending after whole words, with `value` in the register before them.
fn spread(value: u32, bytes: &[u8]) -> Pending
    requires { length bytes.now % 8 ≡ 0 }
    ensures { Spreads value bytes.now result }
{
    let p = Pending {
        first: value as u64,
        second: 0,
        third: 0,
        fourth: 0,
        fifth: 0,
    };
    spread_on(p, bytes)
}

// The register after what is pending is added to the last octets, 40 or more.
fn ended(table: &[u32; 128], p: Pending, o: &[u8]) -> u32
    requires rule { Rule table.now }
    requires in_bounds { 40 ≤ length o.now }
    ensures { Ends p o.now result }
{
    let mut c = crc_word(table, 0, p.first ^ word_at(o, 0));
    c = crc_word(table, c, p.second ^ word_at(o, 8));
    c = crc_word(table, c, p.third ^ word_at(o, 16));
    c = crc_word(table, c, p.fourth ^ word_at(o, 24));
    c = crc_word(table, c, p.fifth ^ word_at(o, 32));
    crc_few(table, c, &o[40..])
}

// The register after the octets. Below 48 octets no word would go without the table.
fn crc_update(table: &[u32; 128], value: u32, bytes: &[u8]) -> u32
    requires { Rule table.now }
    ensures { Takes value bytes.now result }
{
    if bytes.len() < 48 {
        return crc_few(table, value, bytes);
    }
    let n = (bytes.len() - 40) / 8 * 8;
    let p = spread(value, &bytes[..n]);
    ended(table, p, &bytes[n..])
}

// CRC-32 of the bytes.
pub fn crc32(bytes: &[u8]) -> u32
    ensures { result ≡ Fcs.crc32 bytes.now }
{
    let table = TABLE;
    !crc_update(&table, 0xffffffff, bytes)
}

// How many of the four bytes at `at` there are.
fn skipped(len: usize, at: usize) -> usize
    ensures { result ≡ min 4 (len - at) }
{
    len.saturating_sub(at).min(4)
}

// The register after the bytes with the four at `at` read as zero, where `at` begins a word: the zeros go without the table, as one word with the four
// octets behind them.
fn crc_zeroed(table: &[u32; 128], bytes: &[u8], at: usize) -> u32
    requires rule { Rule table.now }
    requires at_value { at % 8 ≡ 0 }
    requires at_in_bounds { at + 48 ≤ length bytes.now }
    ensures { Takes 4294967295 (Fcs.zeroed bytes.now at) result }
{
    let before = spread(0xffffffff, &bytes[..at]);
    let word = (four_at(bytes, at + 4) as u64) * 4294967296;
    let over = turned(before, word);
    let n = (bytes.len() - 40) / 8 * 8;
    let p = spread_on(over, &bytes[at + 8..n]);
    ended(table, p, &bytes[n..])
}

// CRC-32 of the bytes with the four at `at` read as zero. Past the end there is nothing to read: fewer than four, or none, are skipped.
pub fn crc32_skipping(bytes: &[u8], at: usize) -> u32
    ensures { result ≡ Fcs.crc32_skipping bytes.now at }
{
    if bytes.len() <= at {
        return crc32(bytes);
    }
    let table = TABLE;
    if at % 8 == 0 && 48 <= bytes.len() - at {
        return !crc_zeroed(&table, bytes, at);
    }
    let zeros = [0u8; 4];
    let n = skipped(bytes.len(), at);
    let before = crc_update(&table, 0xffffffff, &bytes[..at]);
    let between = crc_update(&table, before, &zeros[..n]);
    !crc_update(&table, between, &bytes[at + n..])
}
