// Blue zones and then stems, on edges that are not refused.
ghost use Rattle.fit_edges_words.specs.Row.{Begun, Joined};

use fit::numbers::Numbers;
use stems::kinds::Mode;
use stems_words::pass::{Passed, stems_in};
use zones_words::pass::where_zoned_in;

// Puts edges on their blue zones, then aligns all stems beside the anchor that these left.
pub fn joined_in(words: &mut [i32], by: Numbers, standards: &[i32]) -> Passed
    requires { Begun by standards.now words.old }
    ensures { Joined by standards.now result words.old words.new }
{
    let dim = by.dim;
    let group = by.group;
    let rule = by.rule;
    let start = where_zoned_in(words, dim, group, rule, standards);
    let mode = Mode {
        dim,
        group,
        stem_adjust: by.stem_adjust,
        rule,
    };
    stems_in(words, mode, standards, start, false)
}
