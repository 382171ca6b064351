// Kept segments moved down to their new places, and the places behind them emptied.
ghost use Rattle.std.specs.Prelude.{◌≡◌, cond, ◌≤◌, ◌<◌};
ghost use Rattle.axis.specs.Accepted.{Below};
ghost use Rattle.axis.specs.Limits.{most_segments};
ghost use Rattle.axis.specs.Link.{is_linked};
ghost use Rattle.axis.specs.Segment.{segment_at};
ghost use Rattle.pack.specs.Sets.{number_at};
ghost use Rattle.pack.specs.Kept.{KeptAre};
ghost use Rattle.pack.specs.Packed.{moved, packed_segment, moved_segments, cleared, Renumbers, SegmentsHold};
ghost use Rattle.words.specs.Segment.{segment_words, segments_in, flat_segments};
ghost use Rattle.words_segment.specs.Whole.{Whole, Became};

use axis::limits::MOST_SEGMENTS;
use words::field::{link_at, link_word};
use words::segment::{EDGE_PLACE, LINK_PLACE, NEXT_PLACE, SEGMENT_WORDS, SERIF_PLACE};
use words::word::write_words;

// The words of an empty segment.
const EMPTY_WORDS: [i32; SEGMENT_WORDS] = [0, 0, 0, 0, 0, 0, 0, 0, 0, -1, -1, 0, 0, -1, -1];

// The index of a segment, where there is one, renumbered.
fn moved_link(link: Option<u16>, new: &[u16; MOST_SEGMENTS]) -> Option<u16>
    requires { Below most_segments link }
    ensures { result ≡ moved (number_at new.now) link }
{
    let Some(k) = link else {
        return None;
    };
    let at = k as usize;
    Some(new[at])
}

// The next of a segment, renumbered; where it has no edge it has none.
fn moved_next(edge: Option<u16>, next: Option<u16>, new: &[u16; MOST_SEGMENTS]) -> Option<u16>
    requires { Below most_segments next }
    ensures { result ≡ cond (is_linked edge) (moved (number_at new.now) next) None }
{
    if edge.is_some() {
        return moved_link(next, new);
    }
    None
}

// The words of a segment, renumbered.
fn packed_words(words: &[i32], i: usize, new: &[u16; MOST_SEGMENTS]) -> [i32; SEGMENT_WORDS]
    requires { Whole words.now × (i < segments_in words.now) × Below most_segments (segment_at (flat_segments words.now) i).link
        × Below most_segments (segment_at (flat_segments words.now) i).serif × Below most_segments (segment_at (flat_segments words.now) i).next }
    ensures { result ≡ segment_words (packed_segment (number_at new.now) (segment_at (flat_segments words.now) i)) }
{
    let at = SEGMENT_WORDS * i;
    let link = link_at(words, at + LINK_PLACE);
    let serif = link_at(words, at + SERIF_PLACE);
    let edge = link_at(words, at + EDGE_PLACE);
    let next = link_at(words, at + NEXT_PLACE);
    let mut packed = [0; SEGMENT_WORDS];
    write_words(&mut packed, 0, &words[at..at + SEGMENT_WORDS]);
    packed[LINK_PLACE] = link_word(moved_link(link, new));
    packed[SERIF_PLACE] = link_word(moved_link(serif, new));
    packed[NEXT_PLACE] = link_word(moved_next(edge, next, new));
    packed
}

// Moves every kept segment to its new place, which is its own or a lower one: what is read later is not written over.
pub fn move_in(words: &mut [i32], kept: &[bool; MOST_SEGMENTS], new: &[u16; MOST_SEGMENTS])
    requires { Whole words.old × SegmentsHold (flat_segments words.old) × KeptAre (flat_segments words.old) kept.now × Renumbers (flat_segments words.old) new.now }
    ensures { Became moved_segments words.old words.new }
{
    let n = words.len() / SEGMENT_WORDS;
    for i in 0..n {
        if !kept[i] {
            continue;
        }
        let packed = packed_words(words, i, new);
        let at = new[i] as usize;
        write_words(words, SEGMENT_WORDS * at, &packed);
    }
}

// Empties the places from the first `count` on.
pub fn clear_in(words: &mut [i32], count: usize)
    requires { Whole words.old × (count ≤ segments_in words.old) }
    ensures { Became (cleared count) words.old words.new }
{
    let n = words.len() / SEGMENT_WORDS;
    let empty = EMPTY_WORDS;
    for i in count..n {
        write_words(words, SEGMENT_WORDS * i, &empty);
    }
}
