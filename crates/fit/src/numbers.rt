// The numbers of an axis, as the words that they are lent as.
ghost use Rattle.std.specs.Prelude.{◌≡◌};
ghost use Rattle.words.specs.Word.{word_at};
ghost use Rattle.words.specs.Field.{choice_of};
ghost use Rattle.fit.specs.Numbers.{numbers_of, numbers_shown, is_horizontal, is_asked};

use axis::kinds::{Dimension, Group};
use fixed::width::WidthRule;
use lowercase_m::hint::count_holds;
use words::field::{choice_of, dimension_of, group_of, rule_of};
use words::word::word_at;
use words_call::shown::{are_choices, both_in};
use words_shape::field::CHOICE;

// How many words the numbers are.
pub const NUMBER_WORDS: usize = 9;

// The dimension and the group of an axis, how its stems, its points and its widths are fitted, whether the glyph is an m, and what the guard asks for.
#[derive(Clone, Copy)]
pub struct Numbers {
    pub dim: Dimension,
    pub group: Group,
    pub stem_adjust: bool,
    pub snap: bool,
    pub alone: bool,
    pub rule: WidthRule,
    pub lowercase_m: bool,
    pub least: i32,
    pub linked: bool,
}

// The choice at a place.
fn choice_at(words: &[i32], i: usize) -> bool
    ensures { result ≡ choice_of (word_at words.now i) }
{
    choice_of(word_at(words, i))
}

// The numbers that words are read as.
pub fn numbers_of(words: &[i32]) -> Numbers
    ensures { result ≡ numbers_of words.now }
{
    let dim = dimension_of(word_at(words, 0));
    let group = group_of(word_at(words, 1));
    let rule = rule_of(word_at(words, 5));
    Numbers {
        dim,
        group,
        stem_adjust: choice_at(words, 2),
        snap: choice_at(words, 3),
        alone: choice_at(words, 4),
        rule,
        lowercase_m: choice_at(words, 6),
        least: word_at(words, 7),
        linked: choice_at(words, 8),
    }
}

// Whether each of the words is one of its field; the least width takes every word.
pub fn numbers_shown(words: &[i32]) -> bool
    ensures { result ≡ numbers_shown words.now }
{
    let first = are_choices(word_at(words, 0), word_at(words, 1), word_at(words, 2));
    let second = are_choices(word_at(words, 3), word_at(words, 4), word_at(words, 5));
    let last = both_in(word_at(words, 6), word_at(words, 8), CHOICE);
    first && second && last
}

// Whether a dimension is the horizontal one.
fn is_horizontal(dim: Dimension) -> bool
    ensures { result ≡ is_horizontal dim }
{
    match dim {
        Dimension::Horizontal => true,
        Dimension::Vertical => false,
    }
}

// Whether the m rule is asked for: the glyph is an m, on the horizontal axis, with as many edges as an m has.
pub fn is_asked(by: Numbers, count: usize) -> bool
    ensures { result ≡ is_asked by count }
{
    by.lowercase_m && is_horizontal(by.dim) && count_holds(count)
}
