// The three stems of an m: which edges they are, and whether the rule applies to them.
ghost use Rattle.std.specs.Prelude.{◌≡◌, ◌≤◌, ◌+◌};
ghost use Rattle.signed.specs.Range.{Between, I32};
ghost use Rattle.axis.specs.Limits.{most_edges, most_units, most_pos};
ghost use Rattle.axis.specs.Link.{links_to};
ghost use Rattle.lowercase_m.specs.M.{stems_of, even, delta, most_delta, linked_on, group_holds, applies};
ghost use Rattle.lowercase_m.specs.Steps.{InTable};

use axis::edge::Edge;
use axis::kinds::Group;
use fixed::point::magnitude;

// The first edges of the three stems.
#[derive(Clone, Copy)]
pub struct Stems {
    pub first: usize,
    pub second: usize,
    pub third: usize,
}

// Of six edges every second, of twelve every fourth but the first.
pub fn stems_of(count: usize) -> Stems
    ensures { result ≡ stems_of count }
{
    if count == 6 {
        return Stems {
            first: 0,
            second: 2,
            third: 4,
        };
    }
    Stems {
        first: 1,
        second: 5,
        third: 9,
    }
}

// Whether the original distances between the stems differ by less than 8.
fn is_even(first: i32, second: i32, third: i32) -> bool
    requires { Between most_units most_units first × Between most_units most_units second × Between most_units most_units third }
    ensures { result ≡ even first second third }
{
    let dist1 = second - first;
    let dist2 = third - second;
    let apart = dist1 - dist2;
    magnitude(apart as i64) < 8
}

// How far the third stem is from its place at the same distance as the second.
pub fn delta_of(first: i32, second: i32, third: i32) -> i32
    requires { Between most_pos most_pos first × Between most_pos most_pos second × Between most_pos most_pos third }
    ensures { (result ≡ delta first second third) × I32 most_delta most_delta result }
{
    third - (second * 2 - first)
}

// Whether an edge is linked to the one behind it.
fn links_on(edge: Edge, ix: usize) -> bool
    requires { ix ≤ most_edges }
    ensures { result ≡ links_to edge.link (ix + 1) }
{
    let link = edge.link;
    link == Some((ix + 1) as u16)
}

// Whether each stem is linked to the edge behind it.
fn linked_on(stems: Stems, edge1: Edge, edge2: Edge, edge3: Edge) -> bool
    requires { InTable stems }
    ensures { result ≡ linked_on stems edge1 edge2 edge3 }
{
    if !links_on(edge1, stems.first) {
        return false;
    }
    if !links_on(edge2, stems.second) {
        return false;
    }
    links_on(edge3, stems.third)
}

// Whether the group's own condition holds: CJK wants linked stems.
fn group_holds(group: Group, stems: Stems, edge1: Edge, edge2: Edge, edge3: Edge) -> bool
    requires { InTable stems }
    ensures { result ≡ group_holds group stems edge1 edge2 edge3 }
{
    match group {
        Group::Default => true,
        Group::Cjk => linked_on(stems, edge1, edge2, edge3),
    }
}

// Whether the rule applies to the stems, whose first edges these are.
pub fn applies(group: Group, stems: Stems, edge1: Edge, edge2: Edge, edge3: Edge) -> bool
    requires in_table { InTable stems }
    requires between { Between most_units most_units edge1.opos × Between most_units most_units edge2.opos × Between most_units most_units edge3.opos }
    ensures { result ≡ applies group stems edge1 edge2 edge3 }
{
    if group_holds(group, stems, edge1, edge2, edge3) {
        return is_even(edge1.opos, edge2.opos, edge3.opos);
    }
    false
}
