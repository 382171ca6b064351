// Edges named in a call.
ghost use Rattle.std.specs.Prelude.{◌≡◌};
ghost use Rattle.place.specs.Placing.{both_below};

// Whether two indices are below a count.
pub fn both_below(first: usize, second: usize, count: usize) -> bool
    ensures { result ≡ both_below count first second }
{
    if first < count {
        return second < count;
    }
    false
}
