// Definitions and laws on lists, tests and lent buffers that the crates above share; and the copies from one buffer to the
// front of another.
#![tactic(auto)]

ghost use Rattle.std.specs.Prelude.{◌≡◌, ◌≤◌, length, take};
ghost use Rattle.lists.specs.Written.{written};

// Copies the first `count` values to the front.
pub fn copy_front<T: Copy>(from: &[T], count: usize, to: &mut [T])
    requires { (count ≤ length from.now) × (count ≤ length to.old) }
    ensures { to.new ≡ written to.old 0 (take count from.now) }
{
    to[..count].copy_from_slice(&from[..count]);
}
