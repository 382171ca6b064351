// The moves of the m rule: each reads the edge that it moves anew, since an edge can be moved twice.
ghost use Rattle.std.specs.Prelude.{◌<◌};
ghost use Rattle.signed.specs.Range.{Between};
ghost use Rattle.axis.specs.Edge.{edge_at};
ghost use Rattle.axis.specs.Accepted.{Below};
ghost use Rattle.lowercase_m.specs.M.{most_delta};
ghost use Rattle.lowercase_m.specs.Steps.{Places, unmoved, twice_moved, thrice_moved};
ghost use Rattle.words.specs.Edge.{edges_in};
ghost use Rattle.words_call.specs.Lent.{edges_of};
ghost use Rattle.words_edge.specs.Whole.{Whole, Became};
ghost use Rattle.lowercase_m_words.specs.M.{moving_done, moving_only, moving_serifs, moving_stem};

use axis::kinds::Mark;
use lowercase_m::moves::moved_back;
use words::edge::EDGE_WORDS;
use words_edge::edge::{put_fixed, put_pos, read_edge};

// Moves an edge back by delta, for good.
fn move_done(words: &mut [i32], i: usize, delta: i32)
    requires whole { Whole words.old × (i < edges_in words.old) }
    requires between { Between thrice_moved thrice_moved (edge_at (edges_of words.old) i).pos × Between most_delta most_delta delta }
    ensures { Became (moving_done i delta) words.old words.new }
{
    let moved = moved_back(read_edge(words, i), delta, Mark::LowercaseM);
    put_fixed(words, i, moved.pos, Mark::LowercaseM);
}

// Moves an edge back by delta.
fn move_only(words: &mut [i32], i: usize, delta: i32)
    requires whole { Whole words.old × (i < edges_in words.old) }
    requires between { Between thrice_moved thrice_moved (edge_at (edges_of words.old) i).pos × Between most_delta most_delta delta }
    ensures { Became (moving_only i delta) words.old words.new }
{
    let moved = moved_back(read_edge(words, i), delta, Mark::LowercaseM);
    put_pos(words, i, moved.pos, Mark::LowercaseM);
}

// Moves the serifs of twelve edges along with the stem.
fn serifs_in(words: &mut [i32], delta: i32)
    requires { Whole words.old × Places twice_moved (edges_of words.old) × Between most_delta most_delta delta }
    ensures { Became (moving_serifs delta) words.old words.new }
{
    if words.len() / EDGE_WORDS != 12 {
        return;
    }
    move_only(words, 8, delta);
    move_only(words, 11, delta);
}

// Moves the third stem, its link as it was before, and the serifs.
pub fn stem_in(words: &mut [i32], third: usize, delta: i32)
    requires whole { Whole words.old × (third < edges_in words.old) × Below (edges_in words.old) (edge_at (edges_of words.old) third).link }
    requires places { Places unmoved (edges_of words.old) × Between most_delta most_delta delta }
    ensures { Became (moving_stem third delta) words.old words.new }
{
    let stem = read_edge(words, third);
    let link = stem.link;
    move_done(words, third, delta);
    let Some(k) = link else {
        serifs_in(words, delta);
        return;
    };
    move_done(words, k as usize, delta);
    serifs_in(words, delta);
}
