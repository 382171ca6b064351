// Reading a frame into lent rooms.
ghost use Rattle.std.specs.Prelude.{◌≡◌, ℕ, ◌+◌, ◌*◌, ◌≤◌, length};
ghost use Rattle.words.specs.Word.{firsts};
ghost use Rattle.log_digits.specs.Digits.{digits_for, byte_at};
ghost use Rattle.log_frame.specs.Limits.{head_size, point_size};
ghost use Rattle.log_frame.specs.Frame.{frame_of};
ghost use Rattle.log_frame.specs.Read.{over, ReadsFrame};
ghost use Rattle.log_frame.specs.Steps.{PointsRead};
ghost use Rattle.log_frame.specs.Answer.{read_of};

use super::good::{contours_in, points_in, read_refusal};
use super::limits::{HEAD_SIZE, POINT_SIZE};
use log_digits::bytes::{byte_at, number_at};
use refusals::order::Refusal;

// The counts of points and contours of a frame.
#[derive(Clone, Copy)]
pub struct Counts {
    pub points: usize,
    pub contours: usize,
}

// Reads the first n points of a line.
fn read_points(line: &[u8], n: usize, originals: &mut [i32], currents: &mut [i32], marks: &mut [u8])
    requires { (digits_for (head_size + point_size * n) ≤ length line.now) × ((n ≤ length originals.old) × ((n ≤ length currents.old) × (n ≤ length marks.old))) }
    ensures { PointsRead line.now n originals.old currents.old marks.old originals.new currents.new marks.new }
{
    for i in 0..n {
        let at = HEAD_SIZE + POINT_SIZE * i;
        marks[i] = byte_at(line, at);
        originals[i] = number_at(line, at + 1);
        currents[i] = number_at(line, at + 3);
    }
}

// Reads k contour ends from a place on.
fn read_ends(line: &[u8], at: usize, k: usize, ends: &mut [u16])
    requires { (digits_for (at + k) ≤ length line.now) × (k ≤ length ends.old) }
    ensures { ends.new ≡ over (firsts (λ (i : ℕ). byte_at line.now (at + i)) k) ends.old }
{
    for i in 0..k {
        ends[i] = u16::from(byte_at(line, at + i));
    }
}

// Reads the frame of a line, which is given without its line feed, into rooms of 255 places each. The refusals are 6, and 255 for a room of another length, which write nothing.
pub fn read_frame(
    line: &[u8],
    originals: &mut [i32],
    currents: &mut [i32],
    marks: &mut [u8],
    ends: &mut [u16],
) -> Result<Counts, Refusal>
    ensures { ReadsFrame line.now (frame_of originals.old currents.old marks.old ends.old)
        (read_of result) (frame_of originals.new currents.new marks.new ends.new) }
{
    read_refusal(line, originals, currents, marks, ends)?;
    let points = points_in(line);
    let contours = contours_in(line);
    read_points(line, points, originals, currents, marks);
    read_ends(line, HEAD_SIZE + POINT_SIZE * points, contours, ends);
    Ok(Counts { points, contours })
}
