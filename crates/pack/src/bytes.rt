// Little-endian readers. A byte past the end counts as 0, so they ask nothing of their callers. Where all bytes are there, which is nearly
// always, one test says so.
ghost use Rattle.std.specs.Prelude.{◌≡◌, ◌+◌, ◌<◌, ◌≤◌, length};
ghost use Rattle.pack.specs.Bytes.{byte_at, u16_at, u32_at, i32_at, u64_at, signed32};

pub fn byte_at(bytes: &[u8], at: usize) -> u8
    ensures { result ≡ byte_at bytes.now at }
{
    if at < bytes.len() {
        return bytes[at];
    }
    0
}

fn wide_16(b: u8) -> u16
    ensures value { result ≡ b }
    ensures upper_bound { result < 256 }
{
    b as u16
}

fn wide_32(b: u8) -> u32
    ensures value { result ≡ b }
    ensures upper_bound { result < 256 }
{
    b as u32
}

// Two bytes that are there.
fn two(bytes: &[u8], at: usize) -> u16
    requires { at + 2 ≤ length bytes.now }
    ensures { result ≡ u16_at bytes.now at }
{
    wide_16(bytes[at]) + wide_16(bytes[at + 1]) * 256
}

// Four bytes that are there.
fn four(bytes: &[u8], at: usize) -> u32
    requires { at + 4 ≤ length bytes.now }
    ensures { result ≡ u32_at bytes.now at }
{
    wide_32(bytes[at])
        + wide_32(bytes[at + 1]) * 256
        + wide_32(bytes[at + 2]) * 65536
        + wide_32(bytes[at + 3]) * 16777216
}

// Two bytes of which one or both are past the end.
fn two_past(bytes: &[u8], at: usize) -> u16
    ensures { result ≡ u16_at bytes.now at }
{
    if bytes.len() <= at {
        return 0;
    }
    let low = byte_at(bytes, at) as u16;
    let high = byte_at(bytes, at + 1) as u16;
    low + high * 256
}

pub fn u16_at(bytes: &[u8], at: usize) -> u16
    ensures { result ≡ u16_at bytes.now at }
{
    if bytes.len() <= at {
        return 0;
    }
    if bytes.len() - at < 2 {
        return two_past(bytes, at);
    }
    two(bytes, at)
}

// Four bytes of which some are past the end.
fn four_past(bytes: &[u8], at: usize) -> u32
    ensures { result ≡ u32_at bytes.now at }
{
    if bytes.len() <= at {
        return 0;
    }
    let low = u16_at(bytes, at) as u32;
    let high = u16_at(bytes, at + 2) as u32;
    low + high * 65536
}

pub fn u32_at(bytes: &[u8], at: usize) -> u32
    ensures { result ≡ u32_at bytes.now at }
{
    if bytes.len() <= at {
        return 0;
    }
    if bytes.len() - at < 4 {
        return four_past(bytes, at);
    }
    four(bytes, at)
}

// 32 bits in two's complement.
pub fn signed_32(n: u32) -> i32
    ensures { result ≡ signed32 n }
{
    if n < 2147483648 {
        return n as i32;
    }
    -1 - ((4294967295 - n) as i32)
}

pub fn i32_at(bytes: &[u8], at: usize) -> i32
    ensures { result ≡ i32_at bytes.now at }
{
    signed_32(u32_at(bytes, at))
}

pub fn u64_at(bytes: &[u8], at: usize) -> u64
    ensures { result ≡ u64_at bytes.now at }
{
    if bytes.len() <= at {
        return 0;
    }
    let low = u32_at(bytes, at) as u64;
    let high = u32_at(bytes, at + 4) as u64;
    low + high * 4294967296
}
