// Refusal 8 (request #109): the search for a point that is too steep.
ghost use Rattle.std.specs.Prelude.{◌≡◌, not};
ghost use Rattle.weak.specs.Weak.{gentle};
ghost use Rattle.weak.specs.Steps.{Accepted};

use weak_contour::steep::contour_steep;

// Whether a point of the outline is too steep: each contour is looked at on its own stretch of the lists, and nothing is written.
pub fn too_steep(originals: &[i32], currents: &[i32], touched: &[u8], ends: &[u16]) -> bool
    requires { Accepted originals.now currents.now touched.now ends.now }
    ensures { result ≡ not (gentle originals.now currents.now touched.now ends.now) }
{
    let mut start: usize = 0;
    for x in ends {
        let end = usize::from(*x) + 1;
        if contour_steep(
            &originals[start..end],
            &currents[start..end],
            &touched[start..end],
        ) {
            return true;
        }
        start = end;
    }
    false
}
