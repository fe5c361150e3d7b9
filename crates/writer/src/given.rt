// What number 13 tests of a tile that is given: whole records, a length that a tile may have, and each record as a reader would have it.
ghost use Rattle.std.specs.Prelude.{◌≡◌, ◌+◌, ◌*◌, ◌/◌, ◌<◌, ◌≤◌, length};
ghost use Rattle.tile.specs.Layout as Layout;
ghost use Rattle.tile.specs.Parse.{all_below};
ghost use Rattle.writer.specs.TileWritten as TileWritten;
ghost use Rattle.writer.specs.TileWritten.{places_in, edges_in};
ghost use Rattle.writer.specs.Steps as Steps;

// Bytes that a tile takes, by how many numbers its nodes, edges and vertices have.
pub fn length_of(nodes: usize, edges: usize, vertices: usize) -> usize
    requires nodes_bound { nodes ≤ 49152 }
    requires edges_bound { edges ≤ 49152 }
    requires vertices_bound { vertices ≤ 49152 }
    ensures { result ≡ Layout.length (nodes / 3) (edges / 7) (vertices / 3) }
{
    32 + nodes / 3 * 8 + edges / 7 * 20 + vertices / 3 * 6
}

// No tile of 49,152 bytes has more numbers than that, so the length is worked out only where it can't wrap.
fn is_short(nodes: usize, edges: usize, vertices: usize) -> bool
    ensures { result ≡ Steps.short_of nodes edges vertices }
{
    nodes <= 49152
        && edges <= 49152
        && vertices <= 49152
        && length_of(nodes, edges, vertices) <= 49152
}

// Whole records, and a length that a tile may have.
fn sized(nodes: usize, edges: usize, vertices: usize) -> bool
    ensures { result ≡ Steps.sized_of nodes edges vertices }
{
    nodes % 3 == 0 && edges % 7 == 0 && vertices % 3 == 0 && is_short(nodes, edges, vertices)
}

// A node lies within the tile, and not below the one before it.
#[tactic(auto, using(std::proofs::lemmas::Bool::Decides::nat_tests, crate::proofs::GivenLaws::follows_first, crate::proofs::GivenLaws::follows_next))]
fn node_good(nodes: &[u16], size: u32, i: usize) -> bool
    requires { i * 3 + 3 ≤ length nodes.now }
    ensures { result ≡ Steps.node_good size nodes.now i }
{
    let x = nodes[i * 3];
    let y = nodes[i * 3 + 1];
    let most = size.min(65535);
    u32::from(x) <= most
        && u32::from(y) <= most
        && (i == 0 || !tile::raw::before(y, x, nodes[i * 3 - 2], nodes[i * 3 - 3]))
}

#[tactic(auto, using(std::proofs::lemmas::Bool::Decides::nat_tests))]
fn nodes_good(nodes: &[u16], size: u32) -> bool
    ensures { result ≡ all_below (Steps.node_good size nodes.now) (places_in nodes.now) }
{
    (0..nodes.len() / 3).all(|i| node_good(nodes, size, i))
}

// An edge's numbers fit their fields, its nodes and vertices are there.
fn edge_good(edges: &[u32], nodes: u32, vertices: u32, i: usize) -> bool
    requires { i * 7 + 7 ≤ length edges.now }
    ensures { result ≡ TileWritten.edge_good nodes vertices edges.now i }
{
    let at = i * 7;
    edges[at] < nodes
        && edges[at + 1] < nodes
        && edges[at + 3] <= 0xffff
        && edges[at + 4] <= 0xff
        && edges[at + 5] <= 0xff
        && edges[at + 6] <= 0xffff
        && u64::from(edges[at + 2]) + u64::from(edges[at + 3]) <= u64::from(vertices)
}

#[tactic(auto, using(std::proofs::lemmas::Bool::Decides::nat_tests))]
fn edges_good(edges: &[u32], nodes: u32, vertices: u32) -> bool
    ensures { result ≡ all_below (TileWritten.edge_good nodes vertices edges.now) (edges_in edges.now) }
{
    (0..edges.len() / 7).all(|i| edge_good(edges, nodes, vertices, i))
}

// Whatever the key: every one fits its field.
#[tactic(auto, using(std::proofs::lemmas::Bool::Decides::nat_tests, crate::proofs::GivenLaws::good_by))]
pub fn good(size: u32, lon_um: u32, nodes: &[u16], edges: &[u32], vertices: &[u16]) -> bool
    ensures { result ≡ TileWritten.tile_good (Steps.anywhere size lon_um nodes.now edges.now vertices.now) }
{
    if !sized(nodes.len(), edges.len(), vertices.len()) || lon_um == 0 {
        return false;
    }
    nodes_good(nodes, size)
        && edges_good(edges, (nodes.len() / 3) as u32, (vertices.len() / 3) as u32)
}
