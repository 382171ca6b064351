// First and last segments of edges renumbered.
ghost use Rattle.std.specs.Prelude.{◌≡◌, ◌<◌, pos, length, set};
ghost use Rattle.axis.specs.Limits.{most_segments};
ghost use Rattle.pack.specs.Sets.{number_at};
ghost use Rattle.pack.specs.Listing.{Placed};
ghost use Rattle.pack.specs.Packed.{ending, renumbered, Ended, EdgesHold};
ghost use Rattle.words.specs.Word.{word_at};
ghost use Rattle.words.specs.Field.{index_of};
ghost use Rattle.words.specs.Edge.{edges_in};
ghost use Rattle.words_call.specs.Lent.{edges_of};
ghost use Rattle.words_edge.specs.Whole.{Whole, Became};

use axis::limits::MOST_SEGMENTS;
use words::edge::{EDGE_WORDS, FIRST_PLACE, LAST_PLACE};
use words::field::{index_at, index_word};

// Renumbers the index of a segment in a place.
fn moved_in(words: &mut [i32], at: usize, new: &[u16; MOST_SEGMENTS])
    requires { (at < length words.old) × (index_of (word_at words.old at) < most_segments) }
    ensures { words.new ≡ set words.old at (pos (number_at new.now (index_of (word_at words.old at)))) }
{
    let ix = index_at(words, at) as usize;
    words[at] = index_word(new[ix]);
}

// Renumbers the first and the last segment of an edge.
fn end_in(words: &mut [i32], i: usize, new: &[u16; MOST_SEGMENTS])
    requires { Whole words.old × (i < edges_in words.old) × Ended (edges_of words.old) i × Placed new.now }
    ensures { Became (ending i (number_at new.now)) words.old words.new }
{
    moved_in(words, EDGE_WORDS * i + FIRST_PLACE, new);
    moved_in(words, EDGE_WORDS * i + LAST_PLACE, new);
}

// Renumbers those of every edge.
pub fn ends_in(words: &mut [i32], new: &[u16; MOST_SEGMENTS])
    requires { Whole words.old × EdgesHold (edges_of words.old) most_segments × Placed new.now }
    ensures { Became (renumbered (number_at new.now)) words.old words.new }
{
    let n = words.len() / EDGE_WORDS;
    for i in 0..n {
        end_in(words, i, new);
    }
}
