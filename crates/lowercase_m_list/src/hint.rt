// The call.
ghost use Rattle.std.specs.Prelude.{◌≡◌};
ghost use Rattle.refusals.specs.Outcome.{answer_of};
ghost use Rattle.lowercase_m_list.specs.M.{HintsLowercaseMList};
ghost use Rattle.lowercase_m_list.specs.Table.{table_given, hint_table};

use super::table::{load, store};
use axis::edge::{Axis, Edge};
use axis::kinds::{Dimension, Direction, Group};
use axis::limits::MOST_EDGES;
use refusals::order::Refusal;

// The table form on a list's table and length.
fn hint_table(
    edges: [Edge; MOST_EDGES],
    len: usize,
    group: Group,
) -> Result<[Edge; MOST_EDGES], Refusal>
    ensures { table_given edges len result ≡ hint_table edges len group }
{
    let axis = Axis {
        dim: Dimension::Horizontal,
        major_dir: Direction::None,
        edges,
        len,
    };
    let hinted = lowercase_m::hint::hint_lowercase_m(axis, group)?;
    Ok(hinted.edges)
}

// Makes sure that a lowercase m stays symmetric: its third stem comes to the same distance as its second.
pub fn hint_lowercase_m(edges: &mut [Edge], group: Group) -> Result<(), Refusal>
    ensures { HintsLowercaseMList edges.old group (answer_of result) edges.new }
{
    let len = edges.len();
    let table = load(edges);
    let hinted = hint_table(table, len, group)?;
    store(edges, hinted, len);
    Ok(())
}
