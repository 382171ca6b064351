// Words that name an edge.
ghost use Rattle.std.specs.Prelude.{◌≡◌};
ghost use Rattle.words_call.specs.Lent.{named_edge, named_anchor};

use axis::limits::MOST_EDGES;
use words::word::size_of;

// The edge that a word names; a word that names none reads as the place behind the longest list.
pub fn named_edge(word: i32) -> usize
    ensures { result ≡ named_edge word }
{
    if word < 0 {
        return MOST_EDGES;
    }
    size_of(word).min(MOST_EDGES)
}

// None where the word is -1, and else the edge that it names.
pub fn named_anchor(word: i32) -> Option<u16>
    ensures { result ≡ named_anchor word }
{
    if word == -1 {
        return None;
    }
    Some(named_edge(word) as u16)
}
