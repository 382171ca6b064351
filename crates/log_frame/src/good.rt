// Which lines and rooms reading refuses.
ghost use Rattle.std.specs.Prelude.{◌≡◌, ◌≤◌, length};
ghost use Rattle.refusals.specs.Outcome.{answer_of};
ghost use Rattle.refusals.specs.Refusal.{refusal};
ghost use Rattle.log_digits.specs.Digits.{digits_for};
ghost use Rattle.log_frame.specs.Limits.{head_size};
ghost use Rattle.log_frame.specs.Frame.{frame_of, good_line, points_in, contours_in};
ghost use Rattle.log_frame.specs.Read.{are_rooms, read_tests};

use super::limits::{HEAD_SIZE, KIND_BYTE, MOST_COUNTED, frame_size};
use log_digits::bytes::byte_at;
use log_digits::digit::all_digits;
use refusals::order::{Refusal, require};

// How many points a line says that it has.
pub fn points_in(line: &[u8]) -> usize
    requires { digits_for head_size ≤ length line.now }
    ensures { result ≡ points_in line.now }
{
    byte_at(line, 1) as usize
}

// How many contours.
pub fn contours_in(line: &[u8]) -> usize
    requires { digits_for head_size ≤ length line.now }
    ensures { result ≡ contours_in line.now }
{
    byte_at(line, 2) as usize
}

// Whether a line is good: first its length, by its counts, and last each of its characters.
fn good_line(line: &[u8]) -> bool
    ensures { result ≡ good_line line.now }
{
    if line.len() < 2 * HEAD_SIZE {
        return false;
    }
    if line.len() != 2 * frame_size(points_in(line), contours_in(line)) {
        return false;
    }
    if byte_at(line, 0) != KIND_BYTE {
        return false;
    }
    all_digits(line)
}

// Whether rooms of these lengths have a place for each that a frame can have, and no other.
#[tactic(auto, unfolding(crate::specs::Read::are_rooms))]
fn are_rooms(originals: usize, currents: usize, marks: usize, ends: usize) -> bool
    ensures { result ≡ are_rooms originals currents marks ends }
{
    originals == MOST_COUNTED
        && currents == MOST_COUNTED
        && marks == MOST_COUNTED
        && ends == MOST_COUNTED
}

// The refusal of reading, if there is one.
pub fn read_refusal(
    line: &[u8],
    originals: &[i32],
    currents: &[i32],
    marks: &[u8],
    ends: &[u16],
) -> Result<(), Refusal>
    ensures { answer_of result ≡ refusal (read_tests line.now (frame_of originals.now currents.now marks.now ends.now)) }
{
    let rooms = are_rooms(originals.len(), currents.len(), marks.len(), ends.len());
    require(rooms, Refusal::NotWords)?;
    require(good_line(line), Refusal::NotFrame)
}
