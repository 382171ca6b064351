// The three rounds, one after the other.
ghost use Rattle.std.specs.Prelude.{pos, ◌≤ℤ◌};
ghost use Rattle.link.specs.Rounds.{linked};
ghost use Rattle.words_segment.specs.Whole.{Became};
ghost use Rattle.link_words.specs.Linking.{Linkable};

use super::pair::pair_round_in;
use super::serif::serif_round_in;
use super::settle::last_round_in;
use axis::kinds::Direction;
use link::thresholds::Thresholds;

// Links segments into stems and serifs.
pub fn link_in(words: &mut [i32], major_dir: Direction, thresholds: Thresholds)
    requires { Linkable words.old × (pos 0 ≤ℤ thresholds.len) }
    ensures { Became (linked major_dir thresholds) words.old words.new }
{
    pair_round_in(words, major_dir, thresholds);
    serif_round_in(words, thresholds);
    last_round_in(words, thresholds);
}
