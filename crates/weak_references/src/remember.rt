// The public call that remembers.
ghost use Rattle.refusals.specs.Outcome.{answer_of};
ghost use Rattle.weak_references.specs.References.{Remembered};

use super::refuse::remember_refusal;
use refusals::order::Refusal;
use weak_known::remember::remember;

// Writes what is known of each point by touch marks and contour ends: its touched neighbours before and behind, or why it has not two. The refusals are 1
// and 3, which write nothing.
pub fn remember_references(
    touched: &[u8],
    ends: &[u16],
    before: &mut [u16],
    behind: &mut [u16],
) -> Result<(), Refusal>
    ensures { Remembered touched.now ends.now before.old behind.old (answer_of result) before.new behind.new }
{
    remember_refusal(touched, ends, before, behind)?;
    remember(touched, ends, before, behind);
    Ok(())
}
