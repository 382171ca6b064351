// The least set of segments that holds some and what two lists lead to from each of its own: each is listed once, and followed once.
ghost use Rattle.std.specs.Prelude.{◌≡◌, ◌<◌, length};
ghost use Rattle.axis.specs.Limits.{most_segments};
ghost use Rattle.pack.specs.Sets.{is_in, number_at, Least};
ghost use Rattle.pack.specs.Listing.{Listed, Added, Within};

use axis::limits::MOST_SEGMENTS;

// Lists the numbers of a set, and tells how many they are.
fn enlist(kept: &[bool; MOST_SEGMENTS], order: &mut [u16; MOST_SEGMENTS]) -> usize
    requires { (length kept.now ≡ most_segments) × (length order.old ≡ most_segments) }
    ensures { Listed kept.now order.new result }
{
    let mut len = 0;
    for k in 0..MOST_SEGMENTS {
        if !kept[k] {
            continue;
        }
        order[len] = k as u16;
        len += 1;
    }
    len
}

// Puts a number into the set and on the list, unless it is there.
fn reach(
    kept: &mut [bool; MOST_SEGMENTS],
    order: &mut [u16; MOST_SEGMENTS],
    len: usize,
    k: u16,
) -> usize
    requires { Listed kept.old order.old len × (k < most_segments) }
    ensures { Added kept.old order.old len k kept.new order.new result }
{
    let at = k as usize;
    if kept[at] {
        return len;
    }
    kept[at] = true;
    order[len] = k;
    len + 1
}

// Adds to a set what the two lists lead to from each of its numbers.
pub fn follow(
    kept: &mut [bool; MOST_SEGMENTS],
    links: &[u16; MOST_SEGMENTS],
    serifs: &[u16; MOST_SEGMENTS],
)
    requires { (length kept.old ≡ most_segments) × Within links.now × Within serifs.now }
    ensures { Least (number_at links.now) (number_at serifs.now) (is_in kept.old) (is_in kept.new) }
{
    let mut order = [0u16; MOST_SEGMENTS];
    let mut len = enlist(kept, &mut order);
    let mut at = 0;
    // a while: the list grows while it is followed
    while at < len {
        let i = order[at] as usize;
        len = reach(kept, &mut order, len, links[i]);
        len = reach(kept, &mut order, len, serifs[i]);
        at += 1;
    }
}
