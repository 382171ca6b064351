// Which segments a smaller axis keeps.
ghost use Rattle.pack.specs.Kept.{Linked, KeptAre};
ghost use Rattle.words.specs.Segment.{flat_segments};
ghost use Rattle.words_segment.specs.Whole.{Whole};

use axis::limits::MOST_SEGMENTS;
use pack::follow::follow;
use words::field::link_at;
use words::segment::{EDGE_PLACE, LINK_PLACE, SEGMENT_WORDS, SERIF_PLACE};

// Says of each segment whether it is kept; a segment without a link or a serif leads to itself.
pub fn kept_in(words: &[i32]) -> [bool; MOST_SEGMENTS]
    requires { Whole words.now × Linked (flat_segments words.now) }
    ensures { KeptAre (flat_segments words.now) result }
{
    let n = words.len() / SEGMENT_WORDS;
    let mut kept = [false; MOST_SEGMENTS];
    let mut links = [0u16; MOST_SEGMENTS];
    let mut serifs = [0u16; MOST_SEGMENTS];
    for i in 0..n {
        let edge = link_at(words, SEGMENT_WORDS * i + EDGE_PLACE);
        let link = link_at(words, SEGMENT_WORDS * i + LINK_PLACE);
        let serif = link_at(words, SEGMENT_WORDS * i + SERIF_PLACE);
        kept[i] = edge.is_some();
        links[i] = link.map_or(i, usize::from) as u16;
        serifs[i] = serif.map_or(i, usize::from) as u16;
    }
    follow(&mut kept, &links, &serifs);
    kept
}
