// The limits of a frame (document 02, #103), each named here alone.
ghost use Rattle.std.specs.Prelude.{◌≡◌, ◌≤◌};
ghost use Rattle.log_frame.specs.Limits.{most_counted, frame_size};

// Points, and contours: what one byte counts; and the largest contour end.
pub const MOST_COUNTED: usize = 255;

// Bytes in front of the points, and bytes of a point.
pub const HEAD_SIZE: usize = 3;

pub const POINT_SIZE: usize = 5;

// Digits of the longest line, 3,066.
pub const MOST_DIGITS: usize = 2 * (HEAD_SIZE + POINT_SIZE * MOST_COUNTED + MOST_COUNTED);

// The first byte of every frame.
pub const KIND_BYTE: u8 = 1;

// Bytes of a frame of so many points and contours.
pub fn frame_size(points: usize, contours: usize) -> usize
    requires { (points ≤ most_counted) × (contours ≤ most_counted) }
    ensures { result ≡ frame_size points contours }
{
    HEAD_SIZE + POINT_SIZE * points + contours
}
