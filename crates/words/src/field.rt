// The fields of records as words, and back. In a job every word is within its field's values, so what another word reads as is what is simplest.
ghost use Rattle.std.specs.Prelude.{◌≡◌, ◌+◌, ◌≤◌, pos};
ghost use Rattle.words.specs.Word.{word_at};
ghost use Rattle.words.specs.Field.{short_of, index_of, link_of, choice_of, direction_of, mark_of, group_of, dimension_of, rule_of, blue_of, flags_of, odd_of, weight_of};
ghost use Rattle.words.specs.Field.{link_word, direction_word, mark_word, present_word, fitted_word, flags_word};

use super::word::{size_of, word_at};
use axis::flags::Flags;
use axis::kinds::{Dimension, Direction, Group, Mark};
use fixed::width::WidthRule;

// The marks, by their words.
const MARKS: [Mark; 13] = [
    Mark::Nothing,
    Mark::BlueAnchor,
    Mark::Blue,
    Mark::Linked,
    Mark::Anchor,
    Mark::Stem,
    Mark::Adjusted,
    Mark::Bound,
    Mark::Serif,
    Mark::LowercaseM,
    Mark::Between,
    Mark::Spaced,
    Mark::RemainingAnchor,
];

// A 16-bit number.
pub fn short_of(word: i32) -> i16
    ensures { result ≡ short_of word }
{
    if word < -32768 {
        return 0;
    }
    if 32767 < word {
        return 0;
    }
    word as i16
}

// The 16-bit number at a place.
pub fn short_at(words: &[i32], i: usize) -> i16
    ensures { result ≡ short_of (word_at words.now i) }
{
    short_of(word_at(words, i))
}

// An index.
pub fn index_of(word: i32) -> u16
    ensures { result ≡ index_of word }
{
    (size_of(word) % 65536) as u16
}

// The index at a place.
pub fn index_at(words: &[i32], i: usize) -> u16
    ensures { result ≡ index_of (word_at words.now i) }
{
    index_of(word_at(words, i))
}

// An index or none.
pub fn link_of(word: i32) -> Option<u16>
    ensures { result ≡ link_of word }
{
    if word < 0 {
        return None;
    }
    Some(index_of(word))
}

// The index or none at a place.
pub fn link_at(words: &[i32], i: usize) -> Option<u16>
    ensures { result ≡ link_of (word_at words.now i) }
{
    link_of(word_at(words, i))
}

// A choice.
pub fn choice_of(word: i32) -> bool
    ensures { result ≡ choice_of word }
{
    word == 1
}

// A direction.
pub fn direction_of(word: i32) -> Direction
    ensures { result ≡ direction_of word }
{
    if word == 1 {
        return Direction::Right;
    }
    if word == 2 {
        return Direction::Left;
    }
    if word == 3 {
        return Direction::Up;
    }
    if word == 4 {
        return Direction::Down;
    }
    Direction::None
}

// The direction at a place.
pub fn direction_at(words: &[i32], i: usize) -> Direction
    ensures { result ≡ direction_of (word_at words.now i) }
{
    direction_of(word_at(words, i))
}

// A mark.
pub fn mark_of(word: i32) -> Mark
    ensures { result ≡ mark_of word }
{
    let number = size_of(word);
    if number < 13 {
        return MARKS[number];
    }
    Mark::Nothing
}

// The mark at a place.
pub fn mark_at(words: &[i32], i: usize) -> Mark
    ensures { result ≡ mark_of (word_at words.now i) }
{
    mark_of(word_at(words, i))
}

// A group.
pub fn group_of(word: i32) -> Group
    ensures { result ≡ group_of word }
{
    if choice_of(word) {
        return Group::Cjk;
    }
    Group::Default
}

// A dimension.
pub fn dimension_of(word: i32) -> Dimension
    ensures { result ≡ dimension_of word }
{
    if choice_of(word) {
        return Dimension::Vertical;
    }
    Dimension::Horizontal
}

// A width rule; its standards stand beside it.
pub fn rule_of(word: i32) -> WidthRule
    ensures { result ≡ rule_of word }
{
    if choice_of(word) {
        return WidthRule::Snap;
    }
    WidthRule::Keep
}

// A blue by two words, whether it is there and its fitted position.
pub fn blue_of(present: i32, fitted: i32) -> Option<i32>
    ensures { result ≡ blue_of present fitted }
{
    if choice_of(present) {
        return Some(fitted);
    }
    None
}

// The blue at a place.
pub fn blue_at(words: &[i32], i: usize) -> Option<i32>
    requires { i ≤ 262144 }
    ensures { result ≡ blue_of (word_at words.now i) (word_at words.now (i + 1)) }
{
    blue_of(word_at(words, i), word_at(words, i + 1))
}

// Whether a number is odd.
fn odd(n: usize) -> bool
    ensures { result ≡ odd_of n }
{
    n % 2 == 1
}

// Flags.
pub fn flags_of(word: i32) -> Flags
    ensures { result ≡ flags_of word }
{
    let n = size_of(word);
    Flags {
        round: odd(n),
        serif: odd(n / 2),
        done: odd(n / 4),
        neutral: odd(n / 8),
    }
}

// The flags at a place.
pub fn flags_at(words: &[i32], i: usize) -> Flags
    ensures { result ≡ flags_of (word_at words.now i) }
{
    flags_of(word_at(words, i))
}

// A 16-bit number as a word.
pub fn short_word(number: i16) -> i32
    ensures { result ≡ number }
{
    number as i32
}

// An index as a word.
pub fn index_word(index: u16) -> i32
    ensures { result ≡ pos index }
{
    index as i32
}

// An index or none as a word.
pub fn link_word(link: Option<u16>) -> i32
    ensures { result ≡ link_word link }
{
    match link {
        None => -1,
        Some(index) => index_word(index),
    }
}

// A direction as a word.
pub fn direction_word(direction: Direction) -> i32
    ensures { result ≡ direction_word direction }
{
    match direction {
        Direction::None => 0,
        Direction::Right => 1,
        Direction::Left => 2,
        Direction::Up => 3,
        Direction::Down => 4,
    }
}

// A mark as a word.
pub fn mark_word(mark: Mark) -> i32
    ensures { result ≡ mark_word mark }
{
    match mark {
        Mark::Nothing => 0,
        Mark::BlueAnchor => 1,
        Mark::Blue => 2,
        Mark::Linked => 3,
        Mark::Anchor => 4,
        Mark::Stem => 5,
        Mark::Adjusted => 6,
        Mark::Bound => 7,
        Mark::Serif => 8,
        Mark::LowercaseM => 9,
        Mark::Between => 10,
        Mark::Spaced => 11,
        Mark::RemainingAnchor => 12,
    }
}

// Whether there is a blue, as a word.
pub fn present_word(blue: Option<i32>) -> i32
    ensures { result ≡ present_word blue }
{
    match blue {
        None => 0,
        Some(_) => 1,
    }
}

// The fitted position of a blue as a word, and 0 where there is none.
pub fn fitted_word(blue: Option<i32>) -> i32
    ensures { result ≡ fitted_word blue }
{
    match blue {
        None => 0,
        Some(fitted) => fitted,
    }
}

// A weight where a flag is set, and 0 where it is not.
fn weight(set: bool, n: u8) -> u8
    ensures { (result ≡ weight_of set n) × (result ≤ n) }
{
    if set {
        return n;
    }
    0
}

// Flags as a word.
pub fn flags_word(flags: Flags) -> i32
    ensures { result ≡ flags_word flags }
{
    (weight(flags.round, 1)
        + weight(flags.serif, 2)
        + weight(flags.done, 4)
        + weight(flags.neutral, 8)) as i32
}
