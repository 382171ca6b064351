// What is told of fitted edges, as words.
ghost use Rattle.std.specs.Prelude.{◌≡◌, length};
ghost use Rattle.fit.specs.Fit.{told_size, told_words};
ghost use Rattle.fit_edges_words.specs.Row.{FewTold};
ghost use Rattle.fit.specs.Answer.{told_of};

use fit::outcome::{FittedEdges, TOLD_WORDS};
use words::field::link_word;
use words::word::{count_word, write_words};

// The words of it.
fn told_words(fitted: FittedEdges) -> [i32; TOLD_WORDS]
    requires { FewTold (told_of fitted) }
    ensures { result ≡ told_words (told_of fitted) }
{
    let gaps = fitted.gaps;
    let pair = gaps.pair;
    let first = pair.first;
    let second = pair.second;
    let anchor = fitted.anchor;
    [
        count_word(gaps.count),
        count_word(gaps.stems),
        count_word(gaps.not_done),
        link_word(first),
        link_word(second),
        pair.before,
        pair.after,
        count_word(fitted.count),
        link_word(anchor),
    ]
}

// Writes them.
pub fn tell(told: &mut [i32], fitted: FittedEdges)
    requires { (length told.old ≡ told_size) × FewTold (told_of fitted) }
    ensures { told.new ≡ told_words (told_of fitted) }
{
    let words = told_words(fitted);
    write_words(told, 0, &words);
}
