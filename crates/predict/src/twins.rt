// The same boundary point in each tile that shares it.
ghost use Rattle.std.specs.Prelude.{◌≡◌};
ghost use Rattle.predict.specs.Twins as Twins;

// A neighbour by its step in rows and columns, and where the point stands in it.
#[derive(Clone, Copy)]
pub struct Twin {
    pub row: i64,
    pub col: i64,
    pub x: u16,
    pub y: u16,
}

// They, and how many they are: three where the point is a corner.
#[derive(Clone, Copy)]
pub struct TwinList {
    pub v: [Twin; 8],
    pub len: usize,
}

// A step to a neighbour along one side, and where the point stands there.
#[derive(Drop)]
pub(crate) struct Side {
    pub step: i64,
    pub at: u16,
}

// Whether the side number `i` shares a point at `at`: 0 the tile itself, 1 the one before, 2 the one after.
fn shares(i: usize, at: u16, size: u16) -> bool
    ensures { result ≡ Twins.shares i at size }
{
    if i == 0 {
        return true;
    }
    if i == 1 {
        return at == 0;
    }
    at == size
}

fn side_of(i: usize, at: u16, size: u16) -> Side
    ensures { result ≡ Twins.side_of i at size }
{
    if i == 0 {
        return Side { step: 0, at };
    }
    if i == 1 {
        return Side { step: -1, at: size };
    }
    Side { step: 1, at: 0 }
}

fn push(t: TwinList, twin: Twin) -> TwinList
    ensures { result ≡ Twins.push t twin }
{
    if 8 <= t.len {
        return t;
    }
    let mut d = t;
    let at = d.len;
    d.v[at] = twin;
    d.len = at + 1;
    d
}

// The neighbour number `i` of nine, row by row, where it shares the point.
fn twin_step(t: TwinList, i: usize, x: u16, y: u16, size: u16) -> TwinList
    ensures { result ≡ Twins.twin_step t i x y size }
{
    if i == 0 {
        return t;
    }
    let r = i / 3;
    let c = i % 3;
    if !shares(r, y, size) {
        return t;
    }
    if !shares(c, x, size) {
        return t;
    }
    let row = side_of(r, y, size);
    let col = side_of(c, x, size);
    let twin = Twin {
        row: row.step,
        col: col.step,
        x: col.at,
        y: row.at,
    };
    push(t, twin)
}

fn no_twins() -> TwinList
    ensures { result ≡ Twins.no_twins }
{
    let none = Twin {
        row: 0,
        col: 0,
        x: 0,
        y: 0,
    };
    let v = [none; 8];
    TwinList { v, len: 0 }
}

pub(crate) fn boundary_twins(x: u16, y: u16, size: u16) -> TwinList
    ensures { result ≡ Twins.boundary_twins x y size }
{
    let mut t = no_twins();
    for i in 0..9 {
        t = twin_step(t, i, x, y, size);
    }
    t
}
