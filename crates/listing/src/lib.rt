// The listing of a palette, and its prediction. `list` and `pred` answer for all arguments; the others serve them.
#![tactic(auto)]

ghost use Rattle.std.specs.Prelude.{◌≡◌, cond, ◌++◌, ℕ, ◌+◌, ◌*◌, ◌≤◌, ◌<◌, leb, pos, length, take, drop, get_or};
ghost use Rattle.std.specs.Float.{binary32};
ghost use Rattle.std.specs.Float.Ieee.{of_int};
ghost use Rattle.lists.specs.Counted.{bit};
ghost use Rattle.lists.specs.Written.{written};
ghost use Rattle.refusals.specs.Numbers.{number};
ghost use Rattle.counts.specs.Counts.{orient_sent};
ghost use Rattle.literals.specs.Words.{word, raw_bits, raw_width_of};
ghost use Rattle.accept.specs.Palette.{palette_of};
ghost use Rattle.accept.specs.Mapped.{palette_in};
ghost use Rattle.accept.specs.Accepted.{refusal};
ghost use Rattle.listing.specs.Listing.{call_list, Lists, values_of, Predicts};
ghost use Rattle.listing.specs.Made.{listed_of};

use accept::Mapped;
use context::{Index, Level};
use emit::IndexMap;
use refusals::Refusal;

// The answer: number 0 with the count of words and their raw width, or a refusal with zeros.
// Stays (1): `palette::list` and `station` hand these three fields on to C.
#[derive(Clone, Copy)]
pub struct Listed {
    pub number: u32,
    pub count: usize,
    pub raw_width: u32,
}

// A list that was written: the count of its words, and their raw width.
#[derive(Clone, Copy)]
struct Made {
    count: usize,
    raw_width: u32,
}

// What one call adds to the raw width.
#[tactic(auto, unfolding(literals::specs::Words::raw_bits))]
fn raw_bits(word: u32) -> u32
    ensures { (result ≡ raw_bits word) × (result ≤ 255) }
{
    let first = word / 65536 % 256;
    let second = word % 65536;
    match word / 16777216 {
        1 => first,
        2 => counts::uniform_bits(second, first),
        _ => 0,
    }
}

// The raw width of words.
#[tactic(auto, unfolding(literals::specs::Words::raw_width_of))]
fn raw_width(words: &[u32]) -> u32
    requires { length words.now ≤ 65536 }
    ensures { (result ≡ raw_width_of words.now) × (result ≤ 255 * length words.now) }
{
    let mut total: u32 = 0;
    for word in words {
        total += raw_bits(*word);
    }
    total
}

// What the map's words add to the raw width: the orientation bit where it is sent, and the uniform call of cell (0,0).
fn map_raw_width(width: usize, height: usize, n: usize, first: Index) -> u32
    requires { n ≤ 8 }
    ensures { (result ≡ bit (orient_sent width height) + raw_bits (word 2 n first.0)) × (result ≤ 256) }
{
    let uniform = raw_bits(literals::call(2, n as u32, u32::from(first.0)));
    u32::from(counts::orient_sent(width, height)) + uniform
}

// Copies a list that was made aside, or refuses, so that no word of it is written where the room is too small.
fn deliver(list: &[u32], words: &mut [u32]) -> Result<(), Refusal>
    ensures value { number result ≡ cond (leb (length list.now) (length words.old)) 0 16 }
    ensures words_after { words.new ≡ cond (leb (length list.now) (length words.old)) (written words.old 0 list.now) words.old }
{
    if words.len() < list.len() {
        return Err(Refusal::WordRoom);
    }
    lists::copy_front(list, list.len(), words);
    Ok(())
}

// A palette that passed every test, and the cache before it.
#[derive(Clone, Copy)]
struct Passed<'a> {
    block: Mapped<'a>,
    cache: &'a [u16],
    ghost few: { (length block.colors ≡ 8) × (block.n ≤ 8) },
    ghost passed: { refusal block.width block.height block.bd (length cache.now) (palette_in block) ≡ 0 },
}

impl Passed<'_> {
    // The whole call list, from the front. Past the colours only two words can add to the raw width, so that the many words
    // of the map are not read again for it.
    fn make(&self, out: &mut [u32]) -> Made
        requires { 4234 ≤ length out.old }
        ensures count_value { result.count ≡ length (call_list self.now.block.width self.now.block.height self.now.block.bd
            self.now.cache.now (palette_in self.now.block)) }
        ensures raw_width_value { result.raw_width ≡ raw_width_of (call_list self.now.block.width self.now.block.height
            self.now.block.bd self.now.cache.now (palette_in self.now.block)) }
        ensures out_after { out.new ≡ written out.old 0 (call_list self.now.block.width self.now.block.height
            self.now.block.bd self.now.cache.now (palette_in self.now.block)) }
    {
        let block = self.block;
        let at = emit::emit_colors(&block.colors[..block.n], block.bd, self.cache, out, 0);
        let before = raw_width(&out[..at]);
        let map = IndexMap {
            cells: block.map,
            flags: block.flags,
            w: block.width,
            h: block.height,
            n: block.n,
            transposed: block.transposed,
        };
        let count = emit::emit_map(map, out, at);
        let first = Index(block.map[0]);
        let raw = before + map_raw_width(block.width, block.height, block.n, first);
        Made {
            count,
            raw_width: raw,
        }
    }

    // As `make_aside`, with the room aside for any list lent: an array held here would make long proofs.
    fn make_by(&self, aside: &mut [u32], words: &mut [u32]) -> Result<Made, Refusal>
        requires { 4234 ≤ length aside.old }
        ensures { Lists self.now.block.width self.now.block.height self.now.block.bd self.now.cache.now
            (palette_in self.now.block) words.old words.new (listed_of result) }
    {
        let made = self.make(aside);
        deliver(&aside[..made.count], words)?;
        Ok(made)
    }

    // The list, where the words may have too little room for it.
    fn make_aside(&self, words: &mut [u32]) -> Result<Made, Refusal>
        ensures { Lists self.now.block.width self.now.block.height self.now.block.bd self.now.cache.now
            (palette_in self.now.block) words.old words.new (listed_of result) }
    {
        let mut aside = [0u32; 4234];
        self.make_by(&mut aside, words)
    }
}

// As `list`, of a palette's fields together.
fn list_block(block: &Mapped, cache: &[u16], words: &mut [u32]) -> Result<Made, Refusal>
    ensures { Lists block.now.width block.now.height block.now.bd cache.now (palette_in block.now) words.old words.new (listed_of result) }
{
    block.fault(cache.len())?;
    let passed = Passed {
        block: *block,
        cache,
    };
    // The longest list: 64 by 64 cells with 64 flags, 64 cache bits, 8 colours in 9 calls, and the size.
    if words.len() < 4234 {
        return passed.make_aside(words);
    }
    Ok(passed.make(words))
}

// Lists a palette's calls from the front, or refuses it and writes nothing.
// Stays (5): `palette` and `reading` call it by its fields, which are those of the C interface.
pub fn list(
    width: usize,
    height: usize,
    bd: u32,
    colors: [u16; 8],
    n: usize,
    transposed: bool,
    map: &[u8],
    flags: &[u8],
    cache: &[u16],
    words: &mut [u32],
) -> Listed
    ensures { Lists width height bd cache.now
        (palette_of colors n transposed map.now flags.now) words.old words.new result }
{
    let block = Mapped {
        width,
        height,
        bd,
        colors,
        n,
        transposed,
        map,
        flags,
    };
    match list_block(&block, cache, words) {
        Ok(made) => Listed {
            number: 0,
            count: made.count,
            raw_width: made.raw_width,
        },
        Err(refusal) => Listed {
            number: refusal.number(),
            count: 0,
            raw_width: 0,
        },
    }
}

fn color_of(colors: &[u16; 8], index: Index) -> Level
    requires { index.0 < 8 }
    ensures { result.0 ≡ get_or colors.now index.0 0 }
{
    Level(colors[usize::from(index.0)])
}

fn value_of(level: Level) -> f32
    ensures { result ≡ of_int binary32 (pos level.0) }
{
    f32::from(level.0)
}

// The colour of each cell, from the front.
fn fill_values(colors: &[u16; 8], map: &[u8], values: &mut [f32])
    requires map_in_bounds { length map.now ≤ length values.old }
    requires by_index { (i : ℕ) → i < length map.now → get_or map.now i 0 < 8 }
    ensures { values.new ≡ values_of colors.now map.now ++ drop (length map.now) values.old }
{
    for (i, index) in map.iter().enumerate() {
        values[i] = value_of(color_of(colors, Index(*index)));
    }
}

// As `pred`, of a palette's fields together.
fn predict(block: &Mapped, values: &mut [f32]) -> Result<(), Refusal>
    ensures { Predicts block.now.width block.now.height block.now.bd (palette_in block.now) values.old values.new (number result) }
{
    block.fault(0)?;
    if values.len() < block.map.len() {
        return Err(Refusal::Room);
    }
    fill_values(&block.colors, block.map, values);
    Ok(())
}

// The prediction: each cell's colour as f32, from the front; or a refusal that writes nothing.
// Stays (1, 5): `palette::pred` hands the number on to C, and calls it by the fields of the C interface.
pub fn pred(
    width: usize,
    height: usize,
    bd: u32,
    colors: [u16; 8],
    n: usize,
    transposed: bool,
    map: &[u8],
    flags: &[u8],
    values: &mut [f32],
) -> u32
    ensures { Predicts width height bd (palette_of colors n transposed map.now flags.now)
        values.old values.new result }
{
    let block = Mapped {
        width,
        height,
        bd,
        colors,
        n,
        transposed,
        map,
        flags,
    };
    match predict(&block, values) {
        Ok(()) => 0,
        Err(refusal) => refusal.number(),
    }
}
