// One word altered, and listed where it differs.
ghost use Rattle.std.specs.Prelude.{◌≡◌, ◌<◌, ◌+◌, ◌*◌, length};
ghost use Rattle.mend.specs.Altered.{most_altered};
ghost use Rattle.words.specs.Word.{word_at};
ghost use Rattle.mend_amend_words.specs.Listing.{alteration_size};
ghost use Rattle.mend_amend_words.specs.Amended.{AmendedWord, kept_word};

use super::word::kept_word;
use words::field::index_word;
use words::word::{read_word, write_words};

// The words of an alteration, and how many the list has places for.
pub const ALTERATION_WORDS: usize = 5;

pub const MOST_ALTERED: usize = 2048;

// What an alteration is of: the number of a table, the index of a record, and the number of a field.
#[derive(Clone, Copy)]
pub struct Named {
    pub table: u16,
    pub index: u16,
    pub field: u16,
}

// Writes a word, and lists it where it differs from what stood there; tells how many are listed.
pub fn amend(
    words: &mut [i32],
    at: usize,
    new: i32,
    room: &mut [i32],
    count: usize,
    named: Named,
) -> usize
    requires { (at < length words.old) × (count < most_altered) × (length room.old ≡ alteration_size * most_altered) }
    ensures { AmendedWord named at new count words.old room.old result words.new room.new }
{
    let old = read_word(words, at);
    if old == new {
        return count;
    }
    let table = index_word(named.table);
    let index = index_word(named.index);
    let field = index_word(named.field);
    let entry = [table, index, field, old, new];
    write_words(room, ALTERATION_WORDS * count, &entry);
    words[at] = new;
    count + 1
}

// Sets an index that is beyond a list of n to none.
pub fn amend_index(
    words: &mut [i32],
    at: usize,
    n: usize,
    room: &mut [i32],
    count: usize,
    named: Named,
) -> usize
    requires { (at < length words.old) × (count < most_altered) × (length room.old ≡ alteration_size * most_altered) }
    ensures { AmendedWord named at (kept_word n (word_at words.old at)) count words.old room.old result words.new room.new }
{
    let new = kept_word(read_word(words, at), n);
    amend(words, at, new, room, count, named)
}
