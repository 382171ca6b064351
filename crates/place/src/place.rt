// An edge placed by another one: the linked edge by its width, the serif edge by its distance.
ghost use Rattle.std.specs.Prelude.{◌≡◌, true};
ghost use Rattle.signed.specs.Range.{Between};
ghost use Rattle.axis.specs.Limits.{most_units};
ghost use Rattle.fixed.specs.Width.{rule_holds};
ghost use Rattle.place.specs.Placing.{linked_pos, linked_edge, serif_pos, serif_edge};
ghost use Rattle.place.specs.Steps.{most_reach, InReach};

use axis::edge::{Edge, with_pos};
use axis::kinds::Mark;
use fixed::width::{WidthRule, stem_width};

// Where a stem edge comes to: its fitted width from the base edge.
fn linked_pos(
    rule: WidthRule,
    standards: &[i32],
    base_pos: i32,
    base_opos: i32,
    stem_opos: i32,
) -> i32
    requires standards_value { rule_holds rule standards.now ≡ true }
    requires between { Between most_reach most_reach base_pos × Between most_units most_units base_opos × Between most_units most_units stem_opos }
    ensures { result ≡ linked_pos rule standards.now base_pos base_opos stem_opos }
{
    let fitted_width = stem_width(rule, standards, stem_opos - base_opos);
    base_pos + fitted_width
}

// The stem edge, placed by the base edge.
pub fn linked_edge(rule: WidthRule, standards: &[i32], base: Edge, stem: Edge) -> Edge
    requires standards_value { rule_holds rule standards.now ≡ true }
    requires in_reach { InReach base × InReach stem }
    ensures { result ≡ linked_edge rule standards.now base stem }
{
    let pos = linked_pos(rule, standards, base.pos, base.opos, stem.opos);
    with_pos(stem, pos, Mark::Linked)
}

// Where a serif edge comes to: as far from the base edge as it was.
fn serif_pos(base_pos: i32, base_opos: i32, serif_opos: i32) -> i32
    requires { Between most_reach most_reach base_pos × Between most_units most_units base_opos × Between most_units most_units serif_opos }
    ensures { result ≡ serif_pos base_pos base_opos serif_opos }
{
    base_pos + (serif_opos - base_opos)
}

// The serif edge, placed by the base edge.
pub fn serif_edge(base: Edge, serif: Edge) -> Edge
    requires { InReach base × InReach serif }
    ensures { result ≡ serif_edge base serif }
{
    let pos = serif_pos(base.pos, base.opos, serif.opos);
    with_pos(serif, pos, Mark::Serif)
}
