// The choice between two places.
ghost use Rattle.std.specs.Prelude.{◌≡◌, cond, ltb, nat_abs};

use fixed::point::magnitude;

// Of two places the one of the smaller delta, the second on a tie.
pub fn nearer_of(delta1: i32, delta2: i32, cur_pos1: i32, cur_pos2: i32) -> i32
    ensures { result ≡ cond (ltb (nat_abs delta1) (nat_abs delta2)) cur_pos1 cur_pos2 }
{
    if magnitude(delta1 as i64) < magnitude(delta2 as i64) {
        return cur_pos1;
    }
    cur_pos2
}
