// A job of a log, answered.
ghost use Rattle.std.specs.Prelude.{◌≤◌, length};
ghost use Rattle.log_digits.specs.Digits.{digits_for};
ghost use Rattle.log_text.specs.Answer.{job_bytes, done_size, most_results, Puts};

use super::text::{put_refusal, put_results};
use weak::weak::align_weak_points;

// Aligns the weak points of a job and writes its answer, and hands back how many bytes that is.
pub fn answer_job(
    originals: &[i32],
    currents: &mut [i32],
    marks: &[u8],
    ends: &[u16],
    out: &mut [u8],
) -> usize
    requires { (length currents.old ≤ most_results) × (digits_for (done_size most_results) ≤ length out.old) }
    ensures { Puts (job_bytes originals.now currents.old marks.now ends.now) out.old result out.new }
{
    match align_weak_points(originals, currents, marks, ends) {
        Ok(()) => put_results(out, currents),
        Err(refusal) => put_refusal(out, u8::from(refusal)),
    }
}
