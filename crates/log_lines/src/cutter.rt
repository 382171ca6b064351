// What one block has of a line. The line is held in a lent list, so that it may straddle any blocks, and of a line that is longer than the list the beginning is
// held.
ghost use Rattle.std.specs.Prelude.{◌≡◌, min};
ghost use Rattle.log_lines.specs.Cutting.{Took};

// The byte that ends a line.
pub const LINE_FEED: u8 = 10;

// The place behind what was taken from the block, how many bytes of the line are held, and whether its line feed was met.
#[derive(Clone, Copy)]
pub struct Taken {
    pub at: usize,
    pub count: usize,
    pub ended: bool,
}

// A count of held bytes is at most the places of the list.
fn at_most(count: usize, places: usize) -> usize
    ensures { result ≡ min count places }
{
    if count < places {
        return count;
    }
    places
}

// Takes what the block has of a line from the place `from` on, up to its line feed or the block's end, where the first `count` bytes of the list are held already.
pub fn take_line(block: &[u8], from: usize, line: &mut [u8], count: usize) -> Taken
    ensures { Took block.now from line.old count result line.new }
{
    let mut at = from;
    let mut held = at_most(count, line.len());
    // a while: the place behind what was taken is handed back
    while at < block.len() {
        let byte = block[at];
        at += 1;
        if byte == LINE_FEED {
            return Taken {
                at: at,
                count: held,
                ended: true,
            };
        }
        if line.len() <= held {
            continue;
        }
        line[held] = byte;
        held += 1;
    }
    Taken {
        at: at,
        count: held,
        ended: false,
    }
}
