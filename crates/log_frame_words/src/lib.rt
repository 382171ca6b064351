// Writing and reading as gateways call them, with lent places for the counts.
#![tactic(auto)]

ghost use Rattle.std.specs.Prelude.{◌≡◌, ◌<◌};
ghost use Rattle.refusals.specs.Outcome.{answer_of};
ghost use Rattle.log_frame.specs.Frame.{frame_of};
ghost use Rattle.log_frame_words.specs.Lent.{WritesLent, ReadsLent};

use log_frame::read::read_frame;
use log_frame::write::write_frame;
use refusals::order::Refusal;

// A count as a number of 32 bits.
fn wide(count: usize) -> u32
    requires { count < 65536 }
    ensures { result ≡ count }
{
    count as u32
}

// Writes a frame, and tells how many digits it has.
pub fn lend_write(
    originals: &[i32],
    currents: &[i32],
    marks: &[u8],
    ends: &[u16],
    line: &mut [u8],
    digits: &mut u32,
) -> Result<(), Refusal>
    ensures { WritesLent (frame_of originals.now currents.now marks.now ends.now) line.old digits.old
        (answer_of result) (line.new, digits.new) }
{
    *digits = wide(write_frame(originals, currents, marks, ends, line)?);
    Ok(())
}

// Reads a frame, and tells how many points and contours it has.
pub fn lend_read(
    line: &[u8],
    originals: &mut [i32],
    currents: &mut [i32],
    marks: &mut [u8],
    ends: &mut [u16],
    points: &mut u32,
    contours: &mut u32,
) -> Result<(), Refusal>
    ensures { ReadsLent line.now (frame_of originals.old currents.old marks.old ends.old) points.old contours.old
        (answer_of result) (frame_of originals.new currents.new marks.new ends.new, (points.new, contours.new)) }
{
    let counts = read_frame(line, originals, currents, marks, ends)?;
    *contours = wide(counts.contours);
    *points = wide(counts.points);
    Ok(())
}
