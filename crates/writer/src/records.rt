// A tile's records put into its bytes: head, nodes with their adjacency entries, edges, vertices, and the CRC of it all.
ghost use Rattle.std.specs.Prelude.{◌≡◌, ◌+◌, ◌*◌, ◌<◌, ◌≤◌, length};
ghost use Rattle.tile.specs.Layout.{node_start};
ghost use Rattle.writer.specs.Fields.{puts};
ghost use Rattle.writer.specs.TileWritten as TileWritten;
ghost use Rattle.writer.specs.TileWritten.{fields_below, first_entry, places_in, edges_in};
ghost use Rattle.writer.specs.Steps.{entry_if, entries_of, entry_fields};

use crate::fields::put;
use pack::TileKey;

#[tactic(auto, unfolding(crate::specs::Fields::puts))]
fn head(out: &mut [u8], key: TileKey, lon_um: u32, nodes: u32, edges: u32, vertices: u32)
    requires { 32 ≤ length out.old }
    ensures { out.new ≡ puts (TileWritten.head_fields key lon_um nodes edges vertices) out.old }
{
    put::<2>(out, 0, 0x5456);
    put::<1>(out, 2, 1);
    put::<2>(out, 4, u32::from(key.row));
    put::<2>(out, 6, u32::from(key.col));
    put::<2>(out, 8, nodes);
    put::<2>(out, 10, edges);
    put::<4>(out, 12, vertices);
    put::<4>(out, 16, lon_um);
}

// x, y and z of a node or a vertex.
#[tactic(auto, unfolding(crate::specs::Fields::puts))]
fn place(out: &mut [u8], at: usize, places: &[u16], i: usize)
    requires place_fits { at + 6 ≤ length out.old }
    requires place_there { i * 3 + 3 ≤ length places.now }
    ensures { out.new ≡ puts (TileWritten.place_fields at (TileWritten.place_given places.now i)) out.old }
{
    put::<2>(out, at, u32::from(places[i * 3]));
    put::<2>(out, at + 2, u32::from(places[i * 3 + 1]));
    put::<2>(out, at + 4, u32::from(places[i * 3 + 2]));
}

// The entry of one end of an edge, where that end is the node; and how many entries there are then.
#[tactic(auto, using(std::proofs::lemmas::Bool::Decides::nat_tests), unfolding(crate::specs::Fields::puts, crate::specs::Steps::entry_fields))]
fn entry_if(out: &mut [u8], end: u32, node: u32, value: u32, base: usize, count: usize) -> usize
    requires { base + (count + length (entry_if end node value)) * 2 ≤ length out.old }
    ensures value { result ≡ count + length (entry_if end node value) }
    ensures out_after { out.new ≡ puts (entry_fields base count (entry_if end node value)) out.old }
{
    if end == node {
        put::<2>(out, base + count * 2, value);
        return count + 1;
    }
    count
}

// The entries of an edge at a node, start before end.
#[tactic(auto, using(std::proofs::lemmas::Bool::Decides::nat_tests, crate::proofs::EntryLaws::puts_entries))]
fn entries_of(
    out: &mut [u8],
    edges: &[u32],
    i: usize,
    node: u32,
    base: usize,
    count: usize,
) -> usize
    requires few_edges { i < 65536 }
    requires edge_there { i * 7 + 2 ≤ length edges.now }
    requires entries_fit { base + (count + length (entries_of edges.now node i)) * 2 ≤ length out.old }
    ensures value { result ≡ count + length (entries_of edges.now node i) }
    ensures out_after { out.new ≡ puts (entry_fields base count (entries_of edges.now node i)) out.old }
{
    let from = edges[i * 7];
    let to = edges[i * 7 + 1];
    let starts = (i as u32) * 2;
    let ends = starts + 1;
    let started = entry_if(out, from, node, starts, base, count);
    entry_if(out, to, node, ends, base, started)
}

// The entries of a node, by edge.
fn entries_at(out: &mut [u8], edges: &[u32], node: u32, base: usize, count: usize) -> usize
    requires few_edges { edges_in edges.now < 65536 }
    requires entries_fit { base + (count + length (TileWritten.entries_at edges.now node)) * 2 ≤ length out.old }
    ensures value { result ≡ count + length (TileWritten.entries_at edges.now node) }
    ensures out_after { out.new ≡ puts (entry_fields base count (TileWritten.entries_at edges.now node)) out.old }
{
    let last = edges.len() / 7;
    let mut filled = count;
    for i in 0..last {
        filled = entries_of(out, edges, i, node, base, filled);
    }
    filled
}

// A node with its adjacency start.
#[tactic(auto, unfolding(crate::specs::Fields::puts))]
fn node(out: &mut [u8], nodes: &[u16], i: usize, start: u32)
    requires node_fits { node_start i + 8 ≤ length out.old }
    requires node_there { i * 3 + 3 ≤ length nodes.now }
    ensures { out.new ≡ puts (TileWritten.started_fields nodes.now i start) out.old }
{
    let at = 32 + i * 8;
    place(out, at, nodes, i);
    put::<2>(out, at + 6, start);
}

// Nodes and their adjacency entries. An entry's number is at most 2 × edges.
fn all_nodes(out: &mut [u8], nodes: &[u16], edges: &[u32])
    requires tile_short { length out.old ≤ 49152 }
    requires entries_fit { node_start (places_in nodes.now) + edges_in edges.now * 4 ≤ length out.old }
    requires entries_whole { first_entry edges.now (places_in nodes.now) ≡ edges_in edges.now * 2 }
    ensures { out.new ≡ puts (fields_below (TileWritten.entry_field (places_in nodes.now) edges.now) (edges_in edges.now * 2)) (puts (fields_below (TileWritten.node_fields nodes.now edges.now) (places_in nodes.now)) out.old) }
{
    let last = nodes.len() / 3;
    let base = 32 + last * 8;
    let mut count = 0;
    for i in 0..last {
        node(out, nodes, i, count as u32);
        count = entries_at(out, edges, i as u32, base, count);
    }
}

#[tactic(auto, unfolding(crate::specs::Fields::puts))]
fn edge(out: &mut [u8], at: usize, edges: &[u32], i: usize)
    requires edge_fits { at + 16 ≤ length out.old }
    requires edge_there { i * 7 + 7 ≤ length edges.now }
    ensures { out.new ≡ puts (TileWritten.edge_fields_at at (TileWritten.edge_given edges.now i)) out.old }
{
    let first = i * 7;
    put::<2>(out, at, edges[first]);
    put::<2>(out, at + 2, edges[first + 1]);
    put::<4>(out, at + 4, edges[first + 2]);
    put::<2>(out, at + 8, edges[first + 3]);
    put::<1>(out, at + 10, edges[first + 4]);
    put::<1>(out, at + 11, edges[first + 5]);
    put::<2>(out, at + 12, edges[first + 6]);
}

#[tactic(auto, using(std::proofs::lemmas::Bool::Decides::nat_tests, crate::proofs::FieldLaws::below_none, crate::proofs::FieldLaws::below_more))]
fn all_edges(out: &mut [u8], base: usize, edges: &[u32])
    requires { base + edges_in edges.now * 16 ≤ length out.old }
    ensures { out.new ≡ puts (fields_below (TileWritten.edge_fields base edges.now) (edges_in edges.now)) out.old }
{
    let last = edges.len() / 7;
    for i in 0..last {
        edge(out, base + i * 16, edges, i);
    }
}

#[tactic(auto, using(std::proofs::lemmas::Bool::Decides::nat_tests, crate::proofs::FieldLaws::below_none, crate::proofs::FieldLaws::below_more))]
fn all_vertices(out: &mut [u8], base: usize, vertices: &[u16])
    requires { base + places_in vertices.now * 6 ≤ length out.old }
    ensures { out.new ≡ puts (fields_below (TileWritten.vertex_fields base vertices.now) (places_in vertices.now)) out.old }
{
    let last = vertices.len() / 3;
    for i in 0..last {
        place(out, base + i * 6, vertices, i);
    }
}

// A whole tile. Its length is that of the records, and every edge's nodes are there.
#[tactic(auto, using(std::proofs::lemmas::Bool::Decides::nat_tests))]
pub fn fill(
    out: &mut [u8],
    key: TileKey,
    lon_um: u32,
    nodes: &[u16],
    edges: &[u32],
    vertices: &[u16],
)
    requires tile_short { length out.old ≤ 49152 }
    requires tile_length { length out.old ≡ TileWritten.tile_length (TileWritten.given key 0 lon_um nodes.now edges.now vertices.now) }
    requires entries_whole { first_entry edges.now (places_in nodes.now) ≡ edges_in edges.now * 2 }
    ensures { out.new ≡ TileWritten.tile_bytes (TileWritten.given key 0 lon_um nodes.now edges.now vertices.now) }
{
    out.fill(0);
    head(
        out,
        key,
        lon_um,
        (nodes.len() / 3) as u32,
        (edges.len() / 7) as u32,
        (vertices.len() / 3) as u32,
    );
    all_nodes(out, nodes, edges);
    let base = 32 + nodes.len() / 3 * 8 + edges.len() / 7 * 4;
    all_edges(out, base, edges);
    all_vertices(out, base + edges.len() / 7 * 16, vertices);
    let sum = crc::crc32(out);
    put::<4>(out, 24, sum);
}
