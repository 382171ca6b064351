// A step of a path, and the numbers that it has where it is lent.
ghost use Rattle.std.specs.Prelude.{◌≡◌};
ghost use Rattle.path_trip.specs.Numbers.{kind_of, first_of, second_of};

use path_places::{PixelPoint, no_place};

// A step; a curve holds its control, then its end.
#[derive(Clone, Copy)]
pub enum PathStep {
    Move(PixelPoint),
    Line(PixelPoint),
    Curve(PixelPoint, PixelPoint),
    Close,
}

// The number of a step's kind.
pub fn kind_of(step: PathStep) -> u8
    ensures { result ≡ kind_of step }
{
    match step {
        PathStep::Move(_) => 1,
        PathStep::Line(_) => 2,
        PathStep::Curve(_, _) => 3,
        PathStep::Close => 4,
    }
}

// The place of a move or a line, the control of a curve.
pub fn first_of(step: PathStep) -> PixelPoint
    ensures { result ≡ first_of step }
{
    match step {
        PathStep::Move(p) => p,
        PathStep::Line(p) => p,
        PathStep::Curve(p, _) => p,
        PathStep::Close => no_place(),
    }
}

// The end of a curve.
pub fn second_of(step: PathStep) -> PixelPoint
    ensures { result ≡ second_of step }
{
    match step {
        PathStep::Curve(_, q) => q,
        PathStep::Move(_) => no_place(),
        PathStep::Line(_) => no_place(),
        PathStep::Close => no_place(),
    }
}
