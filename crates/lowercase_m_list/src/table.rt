// Lists of edges copied into the working table and back.
ghost use Rattle.std.specs.Prelude.{◌≡◌, min, ◌≤◌, length};
ghost use Rattle.axis.specs.Limits.{most_edges};
ghost use Rattle.lowercase_m_list.specs.Table.{empty_table, copied};

use axis::edge::{EMPTY_EDGE, Edge};
use axis::limits::MOST_EDGES;

// A table of empty edges.
fn empty_table() -> [Edge; MOST_EDGES]
    ensures { result ≡ empty_table }
{
    [EMPTY_EDGE; MOST_EDGES]
}

// The table with the first edges of a list in it, as many as it has places.
pub fn load(edges: &[Edge]) -> [Edge; MOST_EDGES]
    ensures { result ≡ copied (min (length edges.now) most_edges) edges.now empty_table }
{
    let n = edges.len().min(MOST_EDGES);
    let mut table = empty_table();
    table[..n].copy_from_slice(&edges[..n]);
    table
}

// Puts the first n edges of a table into a list.
pub fn store(edges: &mut [Edge], table: [Edge; MOST_EDGES], n: usize)
    requires { (n ≤ length edges.old) × (n ≤ most_edges) }
    ensures { edges.new ≡ copied n table edges.old }
{
    edges[..n].copy_from_slice(&table[..n]);
}
