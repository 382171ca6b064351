// The digits of an answer: a refusal, and the results.
ghost use Rattle.std.specs.Prelude.{◌≡◌, ◌+◌, ◌≤◌, length};
ghost use Rattle.log_digits.specs.Digits.{digits_for, written};
ghost use Rattle.log_text.specs.Answer.{refused_bytes, result_bytes, done_bytes, done_size, most_results, Puts};

use log_digits::bytes::put_byte;
use middle::bits::bits_of;

// The first byte of an answer: results follow, and a refusal follows.
const DONE: u8 = 129;

const REFUSED: u8 = 130;

// Writes a refusal, and hands back how many bytes it has.
pub fn put_refusal(out: &mut [u8], number: u8) -> usize
    requires { digits_for 2 ≤ length out.old }
    ensures { Puts (refused_bytes number) out.old result out.new }
{
    put_byte(out, 0, REFUSED);
    put_byte(out, 1, number);
    2
}

// Writes a result in three bytes from its place on.
fn put_result(out: &mut [u8], at: usize, res: i32)
    requires { digits_for (at + 3) ≤ length out.old }
    ensures { out.new ≡ written out.old at (result_bytes res) }
{
    let bits = bits_of(res);
    put_byte(out, at, (bits / 65536 % 256) as u8);
    put_byte(out, at + 1, (bits / 256 % 256) as u8);
    put_byte(out, at + 2, (bits % 256) as u8);
}

// Writes results behind their count, and hands back how many bytes that is.
pub fn put_results(out: &mut [u8], results: &[i32]) -> usize
    requires { (length results.now ≤ most_results) × (digits_for (done_size (length results.now)) ≤ length out.old) }
    ensures { Puts (done_bytes results.now) out.old result out.new }
{
    let count = results.len() as u8;
    put_byte(out, 0, DONE);
    put_byte(out, 1, count);
    for (i, res) in results.iter().enumerate() {
        put_result(out, 2 + 3 * i, *res);
    }
    2 + 3 * results.len()
}
