// Call words, and the literal colours: ascending, each step in as few bits as the steps and the range need.
// These functions serve the crates above, which meet what they require.
#![tactic(auto)]

ghost use Rattle.std.specs.Prelude.{◌≡◌, true, [], ◌∷◌, ◌+◌, ◌-◌, ◌^◌, ◌<◌, ◌≤◌, length};
ghost use Rattle.lists.specs.Written.{written};
ghost use Rattle.literals.specs.Words.{word, bypass};
ghost use Rattle.literals.specs.Literals.{levels_ok, largest_step, step_bits, cut_bits, step_words, more_words, literal_words, steps_width, literal_bits};

use context::Level;

// A call word: its kind, and two numbers.
// Stays (1): a kind is a number, since `reader` looks for words of any kind below 128, and an enum would ask more of it.
#[tactic(auto, unfolding(crate::specs::Words::word))]
pub fn call(kind: u32, first: u32, second: u32) -> u32
    requires { (kind < 128) × (first < 256) × (second < 65536) }
    ensures { result ≡ word kind first second }
{
    kind * 16777216 + first * 65536 + second
}

// Stores a word at a place, and returns the next place.
// Stays (5): a lent buffer and a place in it are two arguments, here and in `emit`; a struct around the borrow would put both
// behind one more name in each contract.
#[tactic(auto, unfolding(lists::specs::Written::written))]
pub fn put(out: &mut [u32], at: usize, word: u32) -> usize
    requires { at < length out.old }
    ensures { (result ≡ at + 1) × (out.new ≡ written out.old at (word ∷ [])) }
{
    out[at] = word;
    at + 1
}

// Stores a bypass call.
pub fn put_bypass(out: &mut [u32], at: usize, width: u32, value: u32) -> usize
    requires { (width < 256) × (value < 65536) × (at < length out.old) }
    ensures { (result ≡ at + 1) × (out.new ≡ written out.old at (bypass width value ∷ [])) }
{
    put(out, at, call(1, width, value))
}

// The largest level of a depth.
pub fn top_level(bd: u32) -> Level
    requires { bd ≤ 12 }
    ensures { result.0 ≡ 2 ^ bd - 1 }
{
    Level(counts::top_level(bd))
}

// The width after a step: what is left above the level reached cuts it.
#[tactic(auto, unfolding(crate::specs::Literals::cut_bits))]
pub fn cut_bits(bd: u32, b: u32, level: Level) -> u32
    requires { (bd ≤ 12) × (level.0 ≤ 2 ^ bd - 1) }
    ensures { result ≡ cut_bits bd b level.0 }
{
    b.min(counts::ceil_log2(u32::from(top_level(bd).0 - level.0)))
}

fn step(from: Level, to: Level) -> u32
    requires { from.0 < to.0 }
    ensures { (result ≡ to.0 - from.0) × (0 < result) × (result < 65536) }
{
    u32::from(to.0 - from.0)
}

// The literal colours from one on: strictly ascending levels of the depth.
#[derive(Clone, Copy)]
struct Rising<'a> {
    first: Level,
    rest: &'a [u16],
    bd: u32,
    ghost depth: { (8 ≤ bd) × (bd ≤ 12) },
    ghost levels: { levels_ok bd (first.0 ∷ rest.now) ≡ true },
}

impl Rising<'_> {
    // The largest step between neighbours.
    fn largest_step(&self) -> u32
        ensures { result ≡ largest_step self.now.first.0 self.now.rest.now }
    {
        let mut largest: u32 = 0;
        let mut from = self.first;
        for color in self.rest {
            let to = Level(*color);
            largest = largest.max(step(from, to));
            from = to;
        }
        largest
    }

    // The width of the first step.
    fn step_bits(&self) -> u32
        ensures { (result ≡ step_bits self.now.bd self.now.first.0 self.now.rest.now) × (self.now.bd - 3 ≤ result) × (result ≤ self.now.bd) }
    {
        counts::ceil_log2(self.largest_step()).max(self.bd - 3)
    }

    // The steps, the first of them in `first` bits.
    fn emit_steps(&self, first: u32, out: &mut [u32], at: usize) -> usize
        requires first_bound { first ≤ self.now.bd }
        requires colors_in_bounds { at + length (step_words self.now.bd first self.now.first.0 self.now.rest.now) ≤ length out.old }
        ensures value { result ≡ at + length (step_words self.now.bd first self.now.first.0 self.now.rest.now) }
        ensures out_after { out.new ≡ written out.old at (step_words self.now.bd first self.now.first.0 self.now.rest.now) }
    {
        let mut pos = at;
        let mut b = first;
        let mut from = self.first;
        for color in self.rest {
            let to = Level(*color);
            pos = put_bypass(out, pos, b, step(from, to) - 1);
            b = cut_bits(self.bd, b, to);
            from = to;
        }
        pos
    }

    // What follows the first colour, if there are more.
    fn emit_more(&self, out: &mut [u32], at: usize) -> usize
        requires { at + length (more_words self.now.bd self.now.first.0 self.now.rest.now) ≤ length out.old }
        ensures value { result ≡ at + length (more_words self.now.bd self.now.first.0 self.now.rest.now) }
        ensures out_after { out.new ≡ written out.old at (more_words self.now.bd self.now.first.0 self.now.rest.now) }
    {
        if self.rest.is_empty() {
            return at;
        }
        let b = self.step_bits();
        let next = put_bypass(out, at, 2, b - (self.bd - 3));
        self.emit_steps(b, out, next)
    }

    // The sum of the steps' widths, as `emit_steps` sends them.
    fn steps_width(&self, first: u32) -> u32
        requires { (first ≤ self.now.bd) × (length self.now.rest.now ≤ 7) }
        ensures { result ≡ steps_width self.now.bd first self.now.rest.now }
    {
        let mut total: u32 = 0;
        let mut b = first;
        for color in self.rest {
            total += b;
            b = cut_bits(self.bd, b, Level(*color));
        }
        total
    }
}

// The colours as literals, from place `at` on; returns the place after them.
pub fn emit_literals(colors: &[u16], bd: u32, out: &mut [u32], at: usize) -> usize
    requires levels { (8 ≤ bd) × (bd ≤ 12) × (levels_ok bd colors.now ≡ true) }
    requires colors_in_bounds { at + length (literal_words bd colors.now) ≤ length out.old }
    ensures value { result ≡ at + length (literal_words bd colors.now) }
    ensures out_after { out.new ≡ written out.old at (literal_words bd colors.now) }
{
    match colors {
        [] => at,
        [first, rest @ ..] => {
            let first = Level(*first);
            let next = put_bypass(out, at, bd, u32::from(first.0));
            Rising { first, rest, bd }.emit_more(out, next)
        }
    }
}

// How many bits the literals take.
pub fn literal_bits(colors: &[u16], bd: u32) -> u32
    requires { (length colors.now ≤ 8) × (8 ≤ bd) × (bd ≤ 12) × (levels_ok bd colors.now ≡ true) }
    ensures { (result ≡ literal_bits bd colors.now) × (result ≤ 98) }
{
    match colors {
        [] => 0,
        [_] => bd,
        [first, rest @ ..] => {
            let first = Level(*first);
            let rising = Rising { first, rest, bd };
            bd + 2 + rising.steps_width(rising.step_bits())
        }
    }
}
