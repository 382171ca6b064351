// A field of one word, its values, and the place behind it.
ghost use Rattle.std.specs.Prelude.{◌≡◌, ◌<◌, length};
ghost use Rattle.words.specs.Word.{word_at};
ghost use Rattle.words_shape.specs.Shape.{is_in, field};

// The values of a field of one word.
#[derive(Clone, Copy)]
pub struct Range {
    pub low: i32,
    pub high: i32,
}

pub const WORD: Range = Range {
    low: -2147483648,
    high: 2147483647,
};

pub const SHORT: Range = Range {
    low: -32768,
    high: 32767,
};

pub const BYTE: Range = Range { low: 0, high: 255 };

pub const INDEX: Range = Range {
    low: 0,
    high: 65535,
};

pub const LINK: Range = Range {
    low: -1,
    high: 65535,
};

pub const CHOICE: Range = Range { low: 0, high: 1 };

pub const DIRECTION: Range = Range { low: 0, high: 4 };

pub const FLAGS: Range = Range { low: 0, high: 15 };

pub const MARK: Range = Range { low: 0, high: 12 };

// Whether a word is within a field's values.
pub fn is_in(word: i32, range: Range) -> bool
    ensures { result ≡ is_in range word }
{
    if word < range.low {
        return false;
    }
    if range.high < word {
        return false;
    }
    true
}

// Whether the word at a place is within a field's values.
pub fn in_at(words: &[i32], at: usize, range: Range) -> bool
    requires { at < length words.now }
    ensures { result ≡ is_in range (word_at words.now at) }
{
    let word = words[at];
    is_in(word, range)
}

// The place behind a field.
pub fn skip_field(words: &[i32], at: usize, range: Range) -> Option<usize>
    ensures { result ≡ field range words.now at }
{
    if words.len() <= at {
        return None;
    }
    if in_at(words, at, range) {
        return Some(at + 1);
    }
    None
}
