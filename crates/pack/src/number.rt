// The numbers of a set in rising order.
ghost use Rattle.std.specs.Prelude.{◌≡◌, cond};
ghost use Rattle.pack.specs.Listing.{Numbered};

use axis::limits::MOST_SEGMENTS;

// How many numbers of the set are below each number, and how many there are.
#[derive(Clone, Copy)]
pub struct Numbers {
    pub new: [u16; MOST_SEGMENTS],
    pub count: usize,
}

// 1 for a number that is in the set, 0 for one that is not.
fn one_if(b: bool) -> usize
    ensures { result ≡ cond b 1 0 }
{
    if b {
        return 1;
    }
    0
}

// Numbers a set.
pub fn number(kept: &[bool; MOST_SEGMENTS]) -> Numbers
    ensures { Numbered kept.now result.new result.count }
{
    let mut new = [0u16; MOST_SEGMENTS];
    let mut count = 0;
    for k in 0..MOST_SEGMENTS {
        new[k] = count as u16;
        count += one_if(kept[k]);
    }
    Numbers { new, count }
}
