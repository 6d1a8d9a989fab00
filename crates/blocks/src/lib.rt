// The block at the front of a text: a palette in the listing program's form, its list, and what the list counts.
// Open to the crates above only: functions may require room for every list, so that 16 does not occur.
#![tactic(auto)]

ghost use Rattle.std.specs.Prelude.{◌≡◌, cond, ◌*◌, ◌≤◌, eqb, length, take};
ghost use Rattle.lists.specs.Written.{front};
ghost use Rattle.accept.specs.Palette.{palette_of};
ghost use Rattle.listing.specs.Listing.{call_list};
ghost use Rattle.text.specs.Text.{Small, lines_in};
ghost use Rattle.blocks.specs.Block.{refused_block, listed_block, block_of, words_of, Few};

use text::{Header, Numbers};

// The number of a refusal or 0, how many bytes of the text are the block's own (0 where its end is not known), and what it counts.
// Stays (1): `block_of` and the theorem `EachItsBlock` have these numbers, and `palette::list` answers with one.
#[derive(Clone, Copy)]
pub struct Block {
    pub number: u32,
    pub taken: usize,
    pub calls: u32,
    pub cells: u32,
    pub raw: u32,
}

// A refused block counts nothing.
pub fn refuse(number: u32, taken: usize) -> Block
    ensures { result ≡ refused_block number taken }
{
    Block {
        number,
        taken,
        calls: 0,
        cells: 0,
        raw: 0,
    }
}

// A palette whose text is in form: its list from the front of `words`, or its refusal.
fn list_block(h: Header, taken: usize, numbers: &Numbers, words: &mut [u32]) -> Block
    requires { Small h × (4234 ≤ length words.old) }
    ensures value { result ≡ listed_block taken h.width h.height h.bd (take h.cached numbers.now.cache)
        (palette_of numbers.now.colors h.n h.transposed (take (h.height * h.width) numbers.now.map) (take (lines_in h) numbers.now.flags)) }
    ensures words_after { words.new ≡ cond (eqb result.number 0)
        (front (call_list h.width h.height h.bd (take h.cached numbers.now.cache)
        (palette_of numbers.now.colors h.n h.transposed (take (h.height * h.width) numbers.now.map) (take (lines_in h) numbers.now.flags))) words.old)
        words.old }
{
    let cells = text::cells_in(h);
    let l = palette::list(
        h.width,
        h.height,
        h.bd,
        numbers.colors,
        h.n,
        h.transposed,
        &numbers.map[..cells],
        &numbers.flags[..text::lines_in(h)],
        &numbers.cache[..h.cached],
        words,
    );
    if l.number != 0 {
        return refuse(l.number, taken);
    }
    Block {
        number: 0,
        taken,
        calls: l.count as u32,
        cells: cells as u32,
        raw: l.raw_width,
    }
}

// Takes the block at the front of s, and writes its list from the front of `words` unless it is refused.
pub fn take_block(s: &[u8], words: &mut [u32]) -> Block
    requires { 4234 ≤ length words.old }
    ensures value { (result ≡ block_of s.now) × Few result }
    ensures words_after { words.new ≡ cond (eqb result.number 0)
        (front (words_of s.now) words.old) words.old }
{
    let mut numbers = Numbers::new();
    match text::read_palette(s, 0, &mut numbers) {
        Ok(h) => list_block(h, text::places_of(h, 0).end, &numbers, words),
        Err(refusal) => refuse(refusal.number(), 0),
    }
}
