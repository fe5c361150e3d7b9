// Edge flags.
// Travel only from `from` to `to`.
pub const ONEWAY: u8 = 1;
// A slip road between two roads.
pub const LINK: u8 = 2;

pub const UNPAVED: u8 = 4;

pub const ROUNDABOUT: u8 = 8;

pub const BRIDGE: u8 = 16;

pub const TUNNEL: u8 = 32;
