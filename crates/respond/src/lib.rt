// The listing program's answer: the output's bytes for the input's bytes.
#![tactic(auto)]

ghost use Rattle.std.specs.Prelude.{◌≡◌, ◌≤◌, length};
ghost use Rattle.lists.specs.Written.{written};
ghost use Rattle.text.specs.Answer.{answer};
ghost use Rattle.respond.specs.Number.{answer_number};

use blocks::Block;
use refusals::Refusal;

// The number of a text that is `long` bytes: here text after the last row is 17.
fn number_of(b: Block, long: usize) -> u32
    ensures { result ≡ answer_number b long }
{
    if (b.taken == 0) | (b.taken == long) {
        return b.number;
    }
    Refusal::Text.number()
}

// Writes the answer to the text s from the front of `out`, and returns its length. The longest is a line with the count and
// one for each of 4,234 calls.
pub fn respond(s: &[u8], out: &mut [u8]) -> usize
    requires { 105859 ≤ length out.old }
    ensures value { result ≡ length (answer s.now) }
    ensures out_after { out.new ≡ written out.old 0 (answer s.now) }
{
    let mut words = [0u32; 4234];
    let b = blocks::take_block(s, &mut words);
    let number = number_of(b, s.len());
    if number != 0 {
        return printing::print_refused(out, 0, number);
    }
    let count = b.calls as usize;
    printing::print_listed(out, 0, &words[..count])
}
