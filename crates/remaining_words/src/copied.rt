// The loops over a copy of the edges, so that a position that no edge may have leaves them as they were.
ghost use Rattle.std.specs.Prelude.{◌≡◌, length};
ghost use Rattle.remaining_pass_words.specs.Words.{ReadyPass};
ghost use Rattle.remaining_words.specs.Lent.{Tried};

use axis::kinds::Group;
use remaining::kinds::Progress;
use remaining_pass_words::pass::pass_in;
use words::edge::TABLE_WORDS;
use words::word::read_word;

// Copies words over as many others. Word by word: for the library's method an archive would want `memmove` from outside, where there is a system too.
pub fn copy(from: &[i32], to: &mut [i32])
    requires { length to.old ≡ length from.now }
    ensures { to.new ≡ from.now }
{
    let n = from.len();
    for i in 0..n {
        to[i] = read_word(from, i);
    }
}

// Aligns a copy of the edges, and then them.
fn try_in(words: &mut [i32], room: &mut [i32], group: Group, start: Progress) -> Progress
    requires { ReadyPass words.old start × (length room.old ≡ length words.old) }
    ensures { Tried group start result words.old words.new }
{
    copy(words, room);
    let past = pass_in(room, group, start);
    if past.beyond {
        return past;
    }
    copy(room, words);
    past
}

// Aligns the edges, or leaves them all where one would be given a position that no edge may have.
pub fn align_copied(words: &mut [i32], group: Group, start: Progress) -> Progress
    requires { ReadyPass words.old start }
    ensures { Tried group start result words.old words.new }
{
    let mut room = [0i32; TABLE_WORDS];
    let n = words.len();
    try_in(words, &mut room[0..n], group, start)
}
