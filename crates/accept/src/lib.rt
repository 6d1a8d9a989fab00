// Whether a palette is accepted: the numbers 1, 2 and 11 to 15, in that order; and the answer of search and reading.
// Open functions answer for all arguments; inner ones require what the tests before them have shown.
#![tactic(auto)]

ghost use Rattle.std.specs.Prelude.{◌≡◌, ◌&&◌, ◌+◌, ◌*◌, ◌<◌, ◌≤◌, eqb, ltb, leb, length, take, get_or};
ghost use Rattle.lists.specs.Counted.{within, all_below, all_in};
ghost use Rattle.context.specs.Map.{row_at, col_at, lines_of};
ghost use Rattle.literals.specs.Literals.{levels_ok};
ghost use Rattle.refusals.specs.Numbers.{number, number_of};
ghost use Rattle.accept.specs.Palette.{first_colors};
ghost use Rattle.accept.specs.Mapped.{palette_in, cells_in, length_in};
ghost use Rattle.accept.specs.Answer.{rooms_ok, refused_by};
ghost use Rattle.accept.specs.Accepted.{sides_ok, colors_ok, orient_ok, counts_ok, line_ok, map_ok, refusal};

use context::{Index, Level};
use refusals::Refusal;

// The answer: number 0 with the colours, their count and the orientation, or a refusal with zeros; and, where search made
// it, the bits that it counted for colours and map. `search::estimate` makes one figure of the two.
// Stays (1): `station` hands C these fields, number first, and the contracts of search, strip and reading name them.
// Stays (6): no heap, so that the colours are the first n of eight, here and in `Mapped`.
#[derive(Clone, Copy)]
pub struct Palette {
    pub number: u32,
    pub transposed: bool,
    pub n: usize,
    pub colors: [u16; 8],
    pub head: f32,
    pub map_bits: f32,
}

pub fn within(low: usize, high: usize, x: usize) -> bool
    ensures { result ≡ within low high x }
{
    low <= x && x <= high
}

#[tactic(auto, unfolding(crate::specs::Accepted::sides_ok))]
pub fn sides_ok(width: usize, height: usize) -> bool
    ensures { result ≡ sides_ok width height }
{
    within(1, 64, width) && within(1, 64, height)
}

// Number 7: room for the cells, and for the flags of either orientation.
pub fn rooms_ok(width: usize, height: usize, cells: usize, lines: usize) -> bool
    requires { (width ≤ 64) × (height ≤ 64) }
    ensures { result ≡ rooms_ok width height cells lines }
{
    width * height <= cells && width.max(height) <= lines
}

// A transposed palette sends its orientation.
#[tactic(auto, unfolding(crate::specs::Accepted::orient_ok))]
pub fn orient_ok(width: usize, height: usize, transposed: bool) -> bool
    ensures { result ≡ orient_ok width height transposed }
{
    !transposed | counts::orient_sent(width, height)
}

// Whether `level` is above `low` and not above `top`.
fn between(low: Level, level: Level, top: Level) -> bool
    ensures { result ≡ (ltb low.0 level.0 && leb level.0 top.0) }
{
    (low.0 < level.0) & (level.0 <= top.0)
}

// Whether the colours are strictly ascending, none above the top level.
fn levels_ok(colors: &[u16], bd: u32) -> bool
    requires { (1 ≤ length colors.now) × (bd ≤ 12) }
    ensures { result ≡ levels_ok bd colors.now }
{
    let top = literals::top_level(bd);
    let mut last = Level(colors[0]);
    let mut ok = last.0 <= top.0;
    for color in &colors[1..] {
        let level = Level(*color);
        ok &= between(last, level, top);
        last = level;
    }
    ok
}

// A block with the palette that is to stand for it: its sides and depth, the first n of eight colours, the orientation, an
// index for each cell and a flag for each line.
#[derive(Clone, Copy)]
pub struct Mapped<'a> {
    pub width: usize,
    pub height: usize,
    pub bd: u32,
    pub colors: [u16; 8],
    pub n: usize,
    pub transposed: bool,
    pub map: &'a [u8],
    pub flags: &'a [u8],
}

impl Mapped<'_> {
    // The first test that fails. It reads, and writes nothing.
    #[tactic(auto, unfolding(crate::specs::Accepted::refusal, crate::specs::Accepted::depth_ok, crate::specs::Accepted::cache_ok))]
    pub fn fault(&self, cached: usize) -> Result<(), Refusal>
        ensures { number result ≡ refusal self.now.width self.now.height self.now.bd cached (palette_in self.now) }
    {
        if !sides_ok(self.width, self.height) {
            return Err(Refusal::Side);
        }
        if !within(8, 12, self.bd as usize) {
            return Err(Refusal::Depth);
        }
        if !self.colors_ok() {
            return Err(Refusal::Colors);
        }
        if !orient_ok(self.width, self.height, self.transposed) {
            return Err(Refusal::Orientation);
        }
        if 64 < cached {
            return Err(Refusal::Cache);
        }
        if !self.counts_ok() {
            return Err(Refusal::Lengths);
        }
        if !self.map_ok() {
            return Err(Refusal::Map);
        }
        Ok(())
    }

    fn colors_ok(&self) -> bool
        requires { self.now.bd ≤ 12 }
        ensures { result ≡ colors_ok self.now.bd (first_colors self.now.colors self.now.n) }
    {
        within(2, 8, self.n) && levels_ok(&self.colors[..self.n], self.bd)
    }

    // Whether there is one index for each cell, and one flag for each line.
    #[tactic(auto, unfolding(crate::specs::Accepted::counts_ok))]
    fn counts_ok(&self) -> bool
        requires { (self.now.width ≤ 64) × (self.now.height ≤ 64) }
        ensures { result ≡ counts_ok self.now.width self.now.height (palette_in self.now) }
    {
        let lines = context::lines_of(self.transposed, self.width, self.height);
        self.map.len() == self.width * self.height && self.flags.len() == lines
    }

    fn map_ok(&self) -> bool
        requires few { self.now.n ≤ 8 }
        requires map_len { length self.now.map.now ≡ self.now.width * self.now.height }
        requires flags_len { length self.now.flags.now ≡ lines_of self.now.transposed self.now.width self.now.height }
        ensures { result ≡ map_ok self.now.width self.now.height (palette_in self.now) }
    {
        self.indices_ok() && self.lines_ok()
    }

    // Whether every index is below n. It looks at all of them: without a way out the loop is quicker.
    fn indices_ok(&self) -> bool
        requires { self.now.n < 256 }
        ensures { result ≡ all_in (λ i. ltb i self.now.n) self.now.map.now }
    {
        let n = self.n as u8;
        let mut ok = true;
        for index in self.map {
            ok &= *index < n;
        }
        ok
    }

    // Whether every line is as its flag says.
    fn lines_ok(&self) -> bool
        requires map_len { length self.now.map.now ≡ self.now.width * self.now.height }
        requires flags_len { length self.now.flags.now ≡ lines_of self.now.transposed self.now.width self.now.height }
        ensures { result ≡ all_below (λ l. line_ok (get_or self.now.flags.now l 0) (cells_in self.now)
            (length_in self.now) l) (lines_of self.now.transposed self.now.width self.now.height) }
    {
        for (l, flag) in self.flags.iter().enumerate() {
            if !self.line_ok(l, *flag) {
                return false;
            }
        }
        true
    }

    // Whether line l is as its flag says.
    #[tactic(auto, unfolding(crate::specs::Accepted::line_ok))]
    fn line_ok(&self, l: usize, flag: u8) -> bool
        requires map_len { length self.now.map.now ≡ self.now.width * self.now.height }
        requires l_bound { l < lines_of self.now.transposed self.now.width self.now.height }
        ensures { result ≡ line_ok flag (cells_in self.now) (length_in self.now) l }
    {
        match flag {
            0 => true,
            1 => self.line_matches(l, l, 0),
            2 => {
                if l == 0 {
                    return false;
                }
                self.line_matches(l, l - 1, 1)
            }
            _ => false,
        }
    }

    // Whether line l equals line `other` place by place (step 1), or the first place of `other` throughout (step 0). It looks
    // at all places: without a way out the loop is quicker.
    fn line_matches(&self, l: usize, other: usize, step: usize) -> bool
        requires map_len { length self.now.map.now ≡ self.now.width * self.now.height }
        requires l_bound { (l < lines_of self.now.transposed self.now.width self.now.height)
            × (other < lines_of self.now.transposed self.now.width self.now.height) × (step ≤ 1) }
        ensures { result ≡ all_below (λ a. eqb (cells_in self.now l a) (cells_in self.now other (a * step))) (length_in self.now) }
    {
        let mut same = true;
        for a in 0..context::length_of(self.transposed, self.width, self.height) {
            same &= self.index_at(l, a).0 == self.index_at(other, a * step).0;
        }
        same
    }

    // The index at place a of line l.
    #[tactic(auto, unfolding(context::specs::Map::line_cell, context::specs::Map::cell))]
    fn index_at(&self, l: usize, a: usize) -> Index
        requires { row_at self.now.transposed l a * self.now.width + col_at self.now.transposed l a < length self.now.map.now }
        ensures { result.0 ≡ cells_in self.now l a }
    {
        if self.transposed {
            return Index(self.map[a * self.width + l]);
        }
        Index(self.map[l * self.width + a])
    }
}

// A number beside zeros.
pub fn refused(number: u32) -> Palette
    ensures { result ≡ refused_by number }
{
    Palette {
        number,
        transposed: false,
        n: 0,
        colors: [0u16; 8],
        head: 0.0,
        map_bits: 0.0,
    }
}

// Zeros in every field.
pub fn blank() -> Palette
    ensures { result ≡ refused_by 0 }
{
    refused(0)
}

// A refusal: zeros beside its number.
pub fn refuse(refusal: Refusal) -> Palette
    ensures { result ≡ refused_by (number_of refusal) }
{
    refused(refusal.number())
}
