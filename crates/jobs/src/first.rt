// The call on the first edges of a table, which are lent to it as a list.
ghost use Rattle.std.specs.Prelude.{◌≡◌, ◌≤◌};
ghost use Rattle.jobs.specs.First.{hint_first};
ghost use Rattle.jobs.specs.Limits.{most_lent};

use axis::edge::Edge;
use axis::kinds::Group;
use lowercase_m_list::hint::hint_lowercase_m;
use refusals::order::answer_of;

// Edges of a list that a job lends: more than the 128 that the call accepts.
pub const MOST_LENT: usize = 160;

// An answer, 0 or the refusal, and the table after it.
#[derive(Clone, Copy)]
pub struct First {
    pub answer: u8,
    pub edges: [Edge; MOST_LENT],
}

// Lends the first n edges of a table, so that whoever holds edges by value can make the call.
pub fn hint_first(edges: [Edge; MOST_LENT], n: usize, group: Group) -> First
    requires { n ≤ most_lent }
    ensures { result ≡ hint_first edges n group }
{
    let mut table = edges;
    let answer = answer_of(hint_lowercase_m(&mut table[..n], group));
    First {
        answer,
        edges: table,
    }
}
