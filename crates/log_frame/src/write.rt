// Writing a frame into a lent line.
ghost use Rattle.std.specs.Prelude.{◌≡◌, [], ◌∷◌, ◌+◌, ◌≤◌, length};
ghost use Rattle.std.specs.Int.{w16};
ghost use Rattle.std.proofs.Common.{SFits};
ghost use Rattle.log_digits.specs.Digits.{digits_for, written, high_of, low_of};
ghost use Rattle.log_frame.specs.Limits.{most_counted, head_size, point_size};
ghost use Rattle.log_frame.specs.Frame.{frame_of, kind_byte, points_bytes};
ghost use Rattle.log_frame.specs.Write.{WritesFrame};
ghost use Rattle.log_frame.specs.Steps.{PointsFit, EndsFit};
ghost use Rattle.log_frame.specs.Answer.{written_of};

use super::fits::write_refusal;
use super::limits::{HEAD_SIZE, KIND_BYTE, POINT_SIZE};
use log_digits::bytes::{put_byte, put_number};
use refusals::order::Refusal;

// Writes what stands in front of the points.
fn put_head(line: &mut [u8], points: usize, contours: usize)
    requires { ((points ≤ most_counted) × (contours ≤ most_counted)) × (digits_for head_size ≤ length line.old) }
    ensures { line.new ≡ written line.old 0 (kind_byte ∷ points ∷ contours ∷ []) }
{
    put_byte(line, 0, KIND_BYTE);
    put_byte(line, 1, points as u8);
    put_byte(line, 2, contours as u8);
}

// Writes a point from its place on.
fn put_point(line: &mut [u8], at: usize, mark: u8, original: i32, current: i32)
    requires { (digits_for (at + point_size) ≤ length line.old) × (SFits w16 original × SFits w16 current) }
    ensures { line.new ≡ written line.old at (mark ∷ high_of original ∷ low_of original ∷ high_of current ∷ low_of current ∷ []) }
{
    put_byte(line, at, mark);
    put_number(line, at + 1, original);
    put_number(line, at + 3, current);
}

// Writes the points.
fn put_points(line: &mut [u8], originals: &[i32], currents: &[i32], marks: &[u8])
    requires { PointsFit originals.now currents.now marks.now (length line.old) }
    ensures { line.new ≡ written line.old head_size (points_bytes originals.now currents.now marks.now (length originals.now)) }
{
    for i in 0..originals.len() {
        put_point(
            line,
            HEAD_SIZE + POINT_SIZE * i,
            marks[i],
            originals[i],
            currents[i],
        );
    }
}

// Writes the contour ends from a place on.
fn put_ends(line: &mut [u8], at: usize, ends: &[u16])
    requires { (digits_for (at + length ends.now) ≤ length line.old) × EndsFit ends.now }
    ensures { line.new ≡ written line.old at ends.now }
{
    for (i, end) in ends.iter().enumerate() {
        put_byte(line, at + i, *end as u8);
    }
}

// Writes the frame of a job at the beginning of a line, and hands back the count of its digits. The refusals are 1, 3 and 4, which write nothing.
pub fn write_frame(
    originals: &[i32],
    currents: &[i32],
    marks: &[u8],
    ends: &[u16],
    line: &mut [u8],
) -> Result<usize, Refusal>
    ensures { WritesFrame (frame_of originals.now currents.now marks.now ends.now) line.old (written_of result) line.new }
{
    write_refusal(originals, currents, marks, ends, line)?;
    put_head(line, originals.len(), ends.len());
    put_points(line, originals, currents, marks);
    let at = HEAD_SIZE + POINT_SIZE * originals.len();
    put_ends(line, at, ends);
    Ok(2 * (at + ends.len()))
}
