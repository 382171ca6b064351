// The words of a list, read as numbers and counts, and written.
ghost use Rattle.std.specs.Prelude.{◌≡◌, ◌+◌, ◌%◌, ◌≤◌, ◌<◌, length, pos};
ghost use Rattle.signed.specs.Parts.{up};
ghost use Rattle.words.specs.Word.{word_at, written};

// A word, and 0 past the end.
pub fn word_at(words: &[i32], i: usize) -> i32
    ensures { result ≡ word_at words.now i }
{
    if i < words.len() {
        return words[i];
    }
    0
}

// A word that is there.
pub fn read_word(words: &[i32], i: usize) -> i32
    requires { i < length words.now }
    ensures { result ≡ word_at words.now i }
{
    words[i]
}

// A word as a count, and 0 where it is below zero.
pub fn size_of(word: i32) -> usize
    ensures { result ≡ up word }
{
    if word < 0 {
        return 0;
    }
    word as usize
}

// The word at a place as a count.
pub fn count_at(words: &[i32], i: usize) -> usize
    ensures { result ≡ up (word_at words.now i) }
{
    size_of(word_at(words, i))
}

// A count as a word; in an answer it is below 65,536, and the remainder is the count.
pub fn count_word(count: usize) -> i32
    ensures { result ≡ pos (count % 65536) }
{
    (count % 65536) as i32
}

// Writes words from a place on. Word by word: for the library's method an archive would want `memmove` from outside, where there is a system too.
pub fn write_words(out: &mut [i32], at: usize, words: &[i32])
    requires { at + length words.now ≤ length out.old }
    ensures { out.new ≡ written out.old at words.now }
{
    let n = words.len();
    for i in 0..n {
        let word = words[i];
        out[at + i] = word;
    }
}
