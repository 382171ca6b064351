// Directions compared (document 01, "Helpers, completed").
ghost use Rattle.std.specs.Prelude.{◌≡◌};
ghost use Rattle.axis.specs.Direction.{opposite as opposite_to};

use super::kinds::Direction;

// Right and left are opposite, up and down are opposite, none is opposite to nothing.
pub fn opposite(a: Direction, b: Direction) -> bool
    ensures { result ≡ opposite_to a b }
{
    match a {
        Direction::None => false,
        Direction::Right => b == Direction::Left,
        Direction::Left => b == Direction::Right,
        Direction::Up => b == Direction::Down,
        Direction::Down => b == Direction::Up,
    }
}
