// The listing program: a palette's text on standard input, its calls or its refusal on standard output.
#![tactic(auto)]

ghost use Rattle.std.specs.Prelude.{OnOk, IfSome};
ghost use Rattle.std.specs.Io.KnownBytes.{Appends};
ghost use Rattle.text.specs.Answer.{answer};

use std::io;
use std::io::{Read, Write};

// Writes the answer to all that the input has.
fn answer_all<R: Read, W: Write>(input: &mut R, out: &mut W) -> io::Result<()>
    ensures { OnOk result (IfSome (R.remaining input.old)
        (λ text. Appends (W.contents out.old) (W.contents out.new) (answer text))) }
{
    // No palette's text fills the buffer, and a longer text is answered as a whole by its first 65,536 bytes: the law
    // `answer_cut` of crate text, which stands at this room in the proof.
    let mut text = [0u8; 65536];
    let n = input::read_full(input, &mut text)?;
    let mut calls = [0u8; 105859];
    let count = respond::respond(&text[..n], &mut calls);
    out.write_all(&calls[..count])
}

fn main(rt: HostRuntime) -> io::Result<()> {
    answer_all(&mut rt.stdin(), &mut rt.stdout())
}
