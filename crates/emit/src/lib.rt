// The words of a palette's colours and of its index map, one after the other into a lent buffer. These functions serve the
// listing, which has tested everything that they require.
// Stays (5): `out` with `at`, as in `literals`: a writer is no plainer, since contracts name the whole buffer before and after.
#![tactic(auto)]

ghost use Rattle.std.specs.Prelude.{◌≡◌, true, false, [], ◌∷◌, ℕ, ◌+◌, ◌-◌, ◌*◌, ◌/◌, ◌%◌, ◌≤◌, ◌<◌, eqb, length, take, get_or};
ghost use Rattle.lists.specs.Counted.{ascending, up_to};
ghost use Rattle.lists.specs.Written.{written};
ghost use Rattle.context.specs.Map.{row_at, col_at, lines_of, length_of};
ghost use Rattle.context.specs.Order.{by_three};
ghost use Rattle.rows.specs.Rows.{row_of};
ghost use Rattle.literals.specs.Words.{word};
ghost use Rattle.literals.specs.Literals.{levels_ok};
ghost use Rattle.emit.specs.Colors.{remove, cache_words, untaken, color_words};
ghost use Rattle.emit.specs.Map.{LinesInside, cell_word, sent_cells, orient_words, map_words};
ghost use Rattle.emit.specs.Keys.{key_of, Inner, KeysAt, KeysIn, CodeWords, Readable, word_by, Extends};

use context::{Index, Level};
use rows::Codes;

// The colours that no cache entry took, ascending: the first `count` places.
// Stays (6): no heap, so that they are the first of eight.
#[derive(Clone, Copy)]
pub struct Left {
    pub count: usize,
    pub colors: [u16; 8],
    ghost few: { count ≤ 8 },
    ghost rising: { ascending (take count colors) ≡ true },
}

impl Left {
    fn new(colors: &[u16]) -> Self
        requires { (length colors.now ≤ 8) × (ascending colors.now ≡ true) }
        ensures { (result.count ≡ length colors.now) × (take result.count result.colors ≡ colors.now) }
    {
        let mut left = [0u16; 8];
        lists::copy_front(colors, colors.len(), &mut left);
        Left {
            count: colors.len(),
            colors: left,
        }
    }

    // Those without `level`.
    fn without(&self, level: Level) -> Self
        ensures count_value { result.count ≡ length (remove level.0 (take self.now.count self.now.colors)) }
        ensures colors_value { take result.count result.colors ≡ remove level.0 (take self.now.count self.now.colors) }
    {
        let mut left = [0u16; 8];
        let mut k: usize = 0;
        for color in &self.colors[..self.count] {
            if *color != level.0 {
                left[k] = *color;
                k += 1;
            }
        }
        Left {
            count: k,
            colors: left,
        }
    }
}

// The untaken colours after all cache entries, and the place after the bits.
#[derive(Clone, Copy)]
pub struct Sent {
    pub left: Left,
    pub next: usize,
}

// One bit for each cache entry in order, until no colour is left.
fn emit_cache_bits(all: Left, cache: &[u16], out: &mut [u32], at: usize) -> Sent
    requires { at + length (cache_words cache.now (take all.count all.colors)) ≤ length out.old }
    ensures count_value { result.left.count ≡ length (untaken cache.now (take all.count all.colors)) }
    ensures colors_value { take result.left.count result.left.colors ≡ untaken cache.now (take all.count all.colors) }
    ensures next_value { result.next ≡ at + length (cache_words cache.now (take all.count all.colors)) }
    ensures out_after { out.new ≡ written out.old at (cache_words cache.now (take all.count all.colors)) }
{
    let mut left = all;
    let mut pos = at;
    for entry in cache {
        let count = left.count;
        if count == 0 {
            return Sent { left, next: pos };
        }
        left = left.without(Level(*entry));
        pos = literals::put_bypass(out, pos, 1, u32::from(left.count < count));
    }
    Sent { left, next: pos }
}

// The size symbol, the cache bits, and the untaken colours as literals.
pub fn emit_colors(colors: &[u16], bd: u32, cache: &[u16], out: &mut [u32], at: usize) -> usize
    requires le_n { (2 ≤ length colors.now) × (length colors.now ≤ 8) × (8 ≤ bd) × (bd ≤ 12) × (levels_ok bd colors.now ≡ true) }
    requires colors_in_bounds { at + length (color_words bd cache.now colors.now) ≤ length out.old }
    ensures value { result ≡ at + length (color_words bd cache.now colors.now) }
    ensures out_after { out.new ≡ written out.old at (color_words bd cache.now colors.now) }
{
    let next = literals::put(out, at, literals::call(3, 0, (colors.len() - 2) as u32));
    let sent = emit_cache_bits(Left::new(colors), cache, out, next);
    let untaken = &sent.left.colors[..sent.left.count];
    literals::emit_literals(untaken, bd, out, sent.next)
}

// Whether it is cell (0,0), which has no neighbour.
fn is_corner(y: usize, x: usize) -> bool
    ensures { result ≡ eqb (y + x) 0 }
{
    y == 0 && x == 0
}

// How many cells a line sends: all, one or none.
#[tactic(auto, unfolding(crate::specs::Map::sent_cells))]
fn sent_cells(flag: u8, len: usize) -> usize
    ensures { result ≡ sent_cells flag len }
{
    match flag {
        0 => len,
        1 => 1,
        _ => 0,
    }
}

// Whether a line goes cell by cell: its cells have one neighbour, or there are too many for the room that the keys have.
fn by_cells(l: usize, count: usize) -> bool
    ensures { result ≡ false → (0 < l) × (2 ≤ count) × (count ≤ 64) }
{
    l == 0 || count < 2 || 64 < count
}

// The place of a cell's code in the table: its row's, and its index.
fn key_of(left: Index, top: Index, diag: Index, index: Index) -> u16
    requires { (left.0 < 8) × (top.0 < 8) × (diag.0 < 8) × (index.0 < 8) }
    ensures { result ≡ row_of left.0 top.0 diag.0 * 8 + index.0 }
{
    u16::from(left.0 * 8 + top.0) * 64 + u16::from(diag.0 * 8 + index.0)
}

// The word of each code.
fn words_of(n: usize) -> [u32; 40]
    requires { (2 ≤ n) × (n ≤ 8) }
    ensures { CodeWords n result }
{
    let mut words = [0u32; 40];
    for (c, word) in words.iter_mut().enumerate() {
        *word = literals::call(5, ((n - 2) * 5 + c / 8) as u32, (c % 8) as u32);
    }
    words
}

// An index map to be sent: its cells row by row, each an index of n, and a flag for each line.
#[derive(Clone, Copy)]
pub struct IndexMap<'a> {
    pub cells: &'a [u8],
    pub flags: &'a [u8],
    pub w: usize,
    pub h: usize,
    pub n: usize,
    pub transposed: bool,
    pub ghost inside: { LinesInside cells.now w n transposed (lines_of transposed w h) (length_of transposed w h) },
    pub ghost small: { (w ≤ 64) × (length cells.now ≤ 4096) },
    pub ghost lines: { (1 ≤ length_of transposed w h) × (lines_of transposed w h ≤ length flags.now) },
}

impl IndexMap<'_> {
    // The index at a place.
    fn index_at(&self, place: usize) -> Index
        requires { place < length self.now.cells.now }
        ensures { result.0 ≡ get_or self.now.cells.now place 0 }
    {
        Index(self.cells[place])
    }

    // The key of the cell at place p.
    fn key_in(&self, p: usize) -> u16
        requires { (self.now.w < p) × (p < length self.now.cells.now) }
        ensures { result ≡ key_of self.now.cells.now self.now.w p }
    {
        let above = p - self.w;
        key_of(
            self.index_at(p - 1),
            self.index_at(above),
            self.index_at(above - 1),
            self.index_at(p),
        )
    }

    // The keys of the cells at first + a * step, from place `from` to before `count`. Their loop is apart from that of the
    // words, so that it can be vector code.
    fn fill_keys(&self, first: usize, step: usize, from: usize, count: usize, keys: &mut [u16])
        requires from_bound { (from ≤ 1) × (count ≤ length keys.old) }
        requires inner { Inner (length self.now.cells.now) self.now.w first step from count }
        ensures { KeysAt self.now.cells.now self.now.w first step count keys.new }
    {
        for a in from..count {
            keys[a] = self.key_in(first + a * step);
        }
    }

    // The keys of line l, from its second cell on. Where the first has places above and before it too, the loop takes it as
    // well: whole vectors are faster than a rest.
    fn line_keys(&self, l: usize, count: usize, keys: &mut [u16])
        requires l_bound { (0 < l) × (l < lines_of self.now.transposed self.now.w self.now.h) }
        requires count_bound { (0 < count) × (count ≤ length_of self.now.transposed self.now.w self.now.h) × (count ≤ length keys.old) }
        ensures { KeysIn self.now.cells.now self.now.w self.now.transposed l count keys.new }
    {
        if self.transposed {
            self.fill_keys(l, self.w, 1, count, keys);
            return;
        }
        let from = usize::from(l == 1);
        self.fill_keys(l * self.w, 1, from, count, keys);
    }

    // The orientation bit, where it is sent.
    #[tactic(auto, unfolding(crate::specs::Map::orient_words, lists::specs::Written::written))]
    fn emit_orientation(&self, out: &mut [u32], at: usize) -> usize
        requires { at + length (orient_words self.now.w self.now.h self.now.transposed) ≤ length out.old }
        ensures value { result ≡ at + length (orient_words self.now.w self.now.h self.now.transposed) }
        ensures out_after { out.new ≡ written out.old at (orient_words self.now.w self.now.h self.now.transposed) }
    {
        if counts::orient_sent(self.w, self.h) {
            return literals::put_bypass(out, at, 1, u32::from(self.transposed));
        }
        at
    }
}

// An index map, and what its words are made by: the codes of all cells, and the word of each code of n.
#[derive(Clone, Copy)]
struct Coder<'a> {
    map: IndexMap<'a>,
    codes: &'a Codes<'a>,
    words: &'a [u32; 40],
    ghost coded: { CodeWords map.n words.now },
}

impl Coder<'_> {
    ghost use Rattle.emit.specs.Lines.{lines_in, length_in, word_in, words_in};

    // The word of the cell at row y, column x.
    fn cell_word(&self, y: usize, x: usize) -> u32
        requires { (x < self.now.map.w) × (y * self.now.map.w + x < length self.now.map.cells.now) }
        ensures { result ≡ cell_word 5 by_three self.now.map.n self.now.map.cells.now self.now.map.w y x }
    {
        let map = self.map;
        let index = map.index_at(y * map.w + x);
        if is_corner(y, x) {
            return literals::call(2, map.n as u32, u32::from(index.0));
        }
        let key = near::key_at(map.cells, self.codes, map.w, y, x);
        let rank = self.codes.rank_at(key.row, index);
        literals::call(5, ((map.n - 2) * 5 + key.ctx) as u32, u32::from(rank.0))
    }

    // The word of place a of line l: lines are rows, or columns when transposed.
    fn line_word(&self, l: usize, a: usize) -> u32
        requires { (l < lines_in self.now.map) × (a < length_in self.now.map) }
        ensures { result ≡ word_in self.now.map l a }
    {
        if self.map.transposed {
            return self.cell_word(a, l);
        }
        self.cell_word(l, a)
    }

    // The words of the first `count` cells of line l, cell by cell.
    #[tactic(auto, unfolding(lists::specs::Written::written, lists::specs::Counted::up_to))]
    fn emit_cells(&self, l: usize, count: usize, out: &mut [u32], at: usize) -> usize
        requires l_bound { (l < lines_in self.now.map) × (count ≤ length_in self.now.map) }
        requires count_in_bounds { at + count ≤ length out.old }
        ensures value { result ≡ at + count }
        ensures out_after { out.new ≡ written out.old at (up_to (λ a. word_in self.now.map l a ∷ []) count) }
    {
        let mut pos = at;
        for a in 0..count {
            pos = literals::put(out, pos, self.line_word(l, a));
        }
        pos
    }

    // The word of the code at a key.
    fn word_at(&self, key: u16) -> u32
        requires { (key < 4096) × (get_or self.now.codes.now.table.now key 0 < 40) }
        ensures { result ≡ get_or self.now.words.now (get_or self.now.codes.now.table.now key 0) 0 }
    {
        let code = self.codes.table[usize::from(key)];
        self.words[usize::from(code)]
    }

    // The words of the cells from `from` to before `to` of a line, by their keys.
    fn emit_keys(&self, keys: &[u16], from: usize, to: usize, out: &mut [u32], at: usize)
        requires { (from ≤ to) × (to ≤ length keys.now) × (at + to ≤ length out.old)
            × (Readable self.now.codes.now.table.now keys.now from to) }
        ensures { Extends (word_by self.now.codes.now.table.now self.now.words.now keys.now) from to at out.old out.new }
    {
        for a in from..to {
            out[at + a] = self.word_at(keys[a]);
        }
    }

    // The words of line l by the keys of its cells; the first has none. Eight at a time: a loop of known length is unrolled.
    // Stays (3): a loop over chunks of keys and words is no plainer than the step of eight.
    fn emit_keyed(&self, keys: &[u16], l: usize, count: usize, out: &mut [u32], at: usize) -> usize
        requires l_bound { (0 < l) × (l < lines_in self.now.map) }
        requires count_bound { (0 < count) × (count ≤ length_in self.now.map) × (count ≤ length keys.now) }
        requires held { KeysIn self.now.map.cells.now self.now.map.w self.now.map.transposed l count keys.now }
        requires count_in_bounds { at + count ≤ length out.old }
        ensures value { result ≡ at + count }
        ensures out_after { out.new ≡ written out.old at (up_to (λ a. word_in self.now.map l a ∷ []) count) }
    {
        out[at] = self.line_word(l, 0);
        let mut a: usize = 1;
        while a + 8 <= count {
            self.emit_keys(keys, a, a + 8, out, at);
            a += 8;
        }
        self.emit_keys(keys, a, count, out, at);
        at + count
    }

    // As `emit_cells`, and faster where the cells have three neighbours.
    fn emit_sent(&self, l: usize, count: usize, out: &mut [u32], at: usize) -> usize
        requires l_bound { (l < lines_in self.now.map) × (count ≤ length_in self.now.map) }
        requires count_in_bounds { at + count ≤ length out.old }
        ensures value { result ≡ at + count }
        ensures out_after { out.new ≡ written out.old at (up_to (λ a. word_in self.now.map l a ∷ []) count) }
    {
        if by_cells(l, count) {
            return self.emit_cells(l, count, out, at);
        }
        let mut keys = [0u16; 64];
        self.map.line_keys(l, count, &mut keys);
        self.emit_keyed(&keys, l, count, out, at)
    }

    // The words of line l: its flag under a context, then the cells that it sends.
    #[tactic(auto, unfolding(lists::specs::Written::written))]
    fn emit_line(&self, l: usize, context: u8, flag: u8, out: &mut [u32], at: usize) -> usize
        requires l_bound { l < lines_in self.now.map }
        requires count_in_bounds { at + 1 + sent_cells flag (length_in self.now.map) ≤ length out.old }
        ensures value { result ≡ at + 1 + sent_cells flag (length_in self.now.map) }
        ensures out_after { out.new ≡ written out.old at (word 4 context flag
            ∷ up_to (λ a. word_in self.now.map l a ∷ []) (sent_cells flag (length_in self.now.map))) }
    {
        let map = self.map;
        let call = literals::call(4, u32::from(context), u32::from(flag));
        let next = literals::put(out, at, call);
        let len = context::length_of(map.transposed, map.w, map.h);
        self.emit_sent(l, sent_cells(flag, len), out, next)
    }

    // The words of all lines. The first has context 3, each other the flag before.
    #[tactic(auto, unfolding(crate::specs::Map::row_context, lists::specs::Written::written, lists::specs::Counted::up_to))]
    fn emit_lines(&self, out: &mut [u32], at: usize) -> usize
        requires { at + length (up_to (words_in self.now.map) (lines_in self.now.map)) ≤ length out.old }
        ensures value { result ≡ at + length (up_to (words_in self.now.map) (lines_in self.now.map)) }
        ensures out_after { out.new ≡ written out.old at (up_to (words_in self.now.map) (lines_in self.now.map)) }
    {
        let mut pos = at;
        let mut context = 3u8;
        for l in 0..context::lines_of(self.map.transposed, self.map.w, self.map.h) {
            let flag = self.map.flags[l];
            pos = self.emit_line(l, context, flag, out, pos);
            context = flag;
        }
        pos
    }

    // The orientation bit, then the lines.
    #[tactic(auto, unfolding(crate::specs::Map::map_words))]
    fn emit(&self, out: &mut [u32], at: usize) -> usize
        requires { at + length (map_words self.now.map.n self.now.map.transposed self.now.map.flags.now self.now.map.cells.now
            self.now.map.w self.now.map.h) ≤ length out.old }
        ensures value { result ≡ at + length (map_words self.now.map.n self.now.map.transposed self.now.map.flags.now
            self.now.map.cells.now self.now.map.w self.now.map.h) }
        ensures out_after { out.new ≡ written out.old at (map_words self.now.map.n self.now.map.transposed
            self.now.map.flags.now self.now.map.cells.now self.now.map.w self.now.map.h) }
    {
        let next = self.map.emit_orientation(out, at);
        self.emit_lines(out, next)
    }
}

// The words of the index map.
pub fn emit_map(map: IndexMap, out: &mut [u32], at: usize) -> usize
    requires { at + length (map_words map.n map.transposed map.flags.now map.cells.now map.w map.h) ≤ length out.old }
    ensures value { result ≡ at + length (map_words map.entry.n map.entry.transposed map.entry.flags.now map.entry.cells.now map.entry.w map.entry.h) }
    ensures out_after { out.new ≡ written out.old at (map_words map.entry.n map.entry.transposed map.entry.flags.now map.entry.cells.now map.entry.w map.entry.h) }
{
    let codes = Codes::new();
    let words = words_of(map.n);
    Coder {
        map,
        codes: &codes,
        words: &words,
    }
    .emit(out, at)
}
