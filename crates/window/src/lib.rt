// A window on an input: what was taken is dropped from its front, and more is read behind the rest.
// Open to programs only: each function requires places within the buffer.
#![tactic(auto)]

ghost use Rattle.std.specs.Prelude.{◌≡◌, ℕ, ◌-◌, ◌<◌, ◌≤◌, false, length, take, drop, IfOk, OnErr};
ghost use Rattle.std.specs.Io.KnownBytes.{Consumes, IsAtEnd};
ghost use Rattle.lists.specs.Written.{written};
ghost use Rattle.window.specs.Window.{unread, view, Inside, Holds};

use std::io;
use std::io::Read;

// The bytes from `at` up to `end` are before the program, and there may be more while `more`.
#[derive(Clone, Copy)]
pub struct Window {
    pub at: usize,
    pub end: usize,
    pub more: bool,
}

// The window before anything is read.
pub fn unread_input() -> Window
    ensures { result ≡ unread }
{
    Window {
        at: 0,
        end: 0,
        more: true,
    }
}

// Moves the bytes from `at` up to `end` to the front, and returns how many they are.
fn move_down(buf: &mut [u8], at: usize, end: usize) -> usize
    requires { (at ≤ end) × (end ≤ length buf.old) }
    ensures value { result ≡ end - at }
    ensures buf_after { buf.new ≡ written buf.old 0 (drop at (take end buf.old)) }
{
    buf.copy_within(at..end, 0);
    end - at
}

// Moves what is before the program to the front and reads behind it; returns how many bytes are then there. An error too
// leaves at the front what was before the program, and behind it what was read.
fn refill<R: Read>(input: &mut R, buf: &mut [u8], w: Window) -> io::Result<usize>
    requires { Inside w buf.old }
    ensures lower_bound { IfOk result (λ n. (w.end - w.at ≤ n) × (n ≤ length buf.old)) }
    ensures buf_after { take (w.end - w.at) buf.new ≡ view w buf.old }
    ensures bytes { IfOk result (λ n. Consumes (R.remaining input.old) (R.remaining input.new)
        (drop (w.end - w.at) (take n buf.new))) }
    ensures end { IfOk result (λ n. n < length buf.new → IsAtEnd (R.remaining input.new)) }
    ensures err { OnErr result ((n : ℕ) × Consumes (R.remaining input.old) (R.remaining input.new)
        (take n (drop (w.end - w.at) buf.new))) }
{
    let left = move_down(buf, w.at, w.end);
    let read = input::read_full(input, &mut buf[left..])?;
    Ok(left + read)
}

// Reads more unless `need` bytes are before the program. A read that does not fill the buffer has met the input's end.
// After an error what was before the program stands at the buffer's front, and behind it what was read.
pub fn hold<R: Read>(input: &mut R, buf: &mut [u8], w: Window, need: usize) -> io::Result<Window>
    requires { Inside w buf.old × (need ≤ length buf.old) }
    ensures holds { IfOk result (λ r. Holds need w buf.old r buf.new) }
    ensures bytes { IfOk result (λ r. Consumes (R.remaining input.old) (R.remaining input.new)
        (drop (w.end - w.at) (view r buf.new))) }
    ensures end { IfOk result (λ r. (w.more ≡ false → IsAtEnd (R.remaining input.old))
        → r.more ≡ false → IsAtEnd (R.remaining input.new)) }
    ensures err { OnErr result ((take (w.end - w.at) buf.new ≡ view w buf.old)
        × (n : ℕ) × Consumes (R.remaining input.old) (R.remaining input.new) (take n (drop (w.end - w.at) buf.new))) }
{
    if (need <= w.end - w.at) | !w.more {
        return Ok(w);
    }
    let end = refill(input, buf, w)?;
    Ok(Window {
        at: 0,
        end,
        more: end == buf.len(),
    })
}
