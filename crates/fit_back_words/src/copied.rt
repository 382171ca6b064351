// Touch marks copied.
ghost use Rattle.std.specs.Prelude.{◌≡◌, length};

// Copies marks over as many others, mark by mark as `remaining_words` copies words.
pub fn copy_marks(from: &[u8], to: &mut [u8])
    requires { length to.old ≡ length from.now }
    ensures { to.new ≡ from.now }
{
    let n = from.len();
    for i in 0..n {
        to[i] = from[i];
    }
}
