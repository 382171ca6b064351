// Document 01's table "Rows that show both sides", run: each row is a job, and the program tells whether the code's answer is the row's. The build row is of a
// number that no call hands back: it is proved alone. The starred rows are all proved of the definitions, in specs/Table.antt.
#![tactic(auto)]

mod edges;
mod number;
mod points;
mod run;
mod segments;

use edges::{bound_rows, m_rows, stem_rows};
use points::weak_rows;
use run::text;
use segments::link_row;

fn main() {
    text(b"Document 01, rows that show both sides; those with a star are proved too\n");
    weak_rows();
    stem_rows();
    m_rows();
    link_row();
    bound_rows();
}
