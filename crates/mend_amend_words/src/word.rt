// The mended value of a field, as a word.
ghost use Rattle.std.specs.Prelude.{◌≡◌, cond, pos};
ghost use Rattle.mend_amend_words.specs.Amended.{kept_word, next_word};

use axis::limits::MOST_EDGES;
use mend::follow::place;
use words::field::index_word;
use words::word::size_of;

// None for an index beyond a list of n.
pub fn kept_word(word: i32, n: usize) -> i32
    ensures { result ≡ kept_word n word }
{
    if size_of(word) < n {
        return word;
    }
    -1
}

// The next of a segment: with an edge what it is led to; without one its own, or none where that is beyond a list of n.
pub fn next_word(edge: u16, led: u16, word: i32, n: usize) -> i32
    ensures { result ≡ next_word n edge led word }
{
    if place(edge) < MOST_EDGES {
        return index_word(led);
    }
    kept_word(word, n)
}

// A segment instead of that of a word where a ring is broken.
pub fn end_word(broken: bool, segment: u16, word: i32) -> i32
    ensures { result ≡ cond broken (pos segment) word }
{
    if broken {
        return index_word(segment);
    }
    word
}
