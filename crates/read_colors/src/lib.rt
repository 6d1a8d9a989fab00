// The colours of a call list: the size, the cache bits and the literals, read one word after the other.
// Functions may have a `requires`.
#![tactic(auto)]

ghost use Rattle.std.specs.Prelude.{◌≡◌, [], ◌+◌, ◌-◌, ◌^◌, ◌<◌, ◌≤◌, min, IfOk};
ghost use Rattle.reader.specs.Steps.{told, left};
ghost use Rattle.read_colors.specs.Colors.{read_bit, read_cache, read_steps, read_more, read_literals, read_colors};
ghost use Rattle.read_colors.specs.Held.{colors_in};

mod held;

use context::Level;
pub use held::Held;
use reader::Reading;
use refusals::Refusal;

// The bit of a cache entry: 1 takes its colour.
fn read_bit(words: &mut Reading, mut held: Held, entry: Level) -> Result<Held, Refusal>
    requires { held.count < 8 }
    ensures reads { read_bit entry.0 (colors_in held) (left words.old) ≡ told colors_in result (left words.new) }
    ensures few { IfOk result (λ h. h.count ≤ held.count + 1) }
    ensures list { words.new.words ≡ words.old.words }
{
    let bit = words.take(1, 1, 2)?;
    if bit == 1 {
        held.insert(entry);
    }
    Ok(held)
}

// One bit for each cache entry in order, until n colours are taken.
fn read_cache(words: &mut Reading, cache: &[u16], n: usize) -> Result<Held, Refusal>
    requires { n ≤ 8 }
    ensures reads { read_cache cache.now n [] (left words.old) ≡ told colors_in result (left words.new) }
    ensures few { IfOk result (λ h. h.count ≤ n) }
    ensures list { words.new.words ≡ words.old.words }
{
    let mut held = Held::new();
    for entry in cache {
        if n <= held.count {
            break;
        }
        held = read_bit(words, held, Level(*entry))?;
    }
    Ok(held)
}

// How many steps there are from a level, in b bits and up to the top level.
fn step_limit(bd: u32, b: u32, level: Level) -> u32
    requires { (bd ≤ 12) × (b ≤ 12) × (level.0 ≤ 2 ^ bd - 1) }
    ensures { result ≡ min (2 ^ b) (2 ^ bd - 1 - level.0) }
{
    let top = literals::top_level(bd);
    let range = u32::from(top.0 - level.0);
    let reach = 1u32 << b;
    reach.min(range)
}

// The level that a step of `second` + 1 reaches.
fn level_above(level: Level, second: u32, bd: u32) -> Level
    requires { (bd ≤ 12) × (second < 2 ^ bd - 1 - level.0) }
    ensures { result.0 ≡ level.0 + 1 + second }
{
    Level(level.0 + 1 + second as u16)
}

// The steps up to n colours, the first of them in `first` bits from the level `from`.
fn read_steps(
    words: &mut Reading,
    mut held: Held,
    n: usize,
    bd: u32,
    first: u32,
    from: Level,
) -> Result<Held, Refusal>
    requires { (n ≤ 8) × (bd ≤ 12) × (first ≤ 12) × (from.0 ≤ 2 ^ bd - 1) × (held.count ≤ n) }
    ensures reads { read_steps bd first from.0 (n - held.count) (colors_in held) (left words.old)
        ≡ told colors_in result (left words.new) }
    ensures all { IfOk result (λ h. h.count ≡ n) }
    ensures list { words.new.words ≡ words.old.words }
{
    let mut b = first;
    let mut last = from;
    // Stays (3): no index is counted by hand, the colours held are.
    while held.count < n {
        let step = words.take(1, b, step_limit(bd, b, last))?;
        last = level_above(last, step, bd);
        b = literals::cut_bits(bd, b, last);
        held.insert(last);
    }
    Ok(held)
}

// What follows the first literal colour, if there are more.
fn read_more(
    words: &mut Reading,
    held: Held,
    n: usize,
    bd: u32,
    from: Level,
) -> Result<Held, Refusal>
    requires { (n ≤ 8) × (8 ≤ bd) × (bd ≤ 12) × (from.0 ≤ 2 ^ bd - 1) × (held.count ≤ n) }
    ensures reads { read_more bd from.0 (n - held.count) (colors_in held) (left words.old)
        ≡ told colors_in result (left words.new) }
    ensures all { IfOk result (λ h. h.count ≡ n) }
    ensures list { words.new.words ≡ words.old.words }
{
    if n <= held.count {
        return Ok(held);
    }
    let more = words.take(1, 2, 4)?;
    read_steps(words, held, n, bd, more + (bd - 3), from)
}

// The colours that the cache left of n, as literals.
fn read_literals(words: &mut Reading, mut held: Held, n: usize, bd: u32) -> Result<Held, Refusal>
    requires { (n ≤ 8) × (8 ≤ bd) × (bd ≤ 12) × (held.count ≤ n) }
    ensures reads { read_literals bd (n - held.count) (colors_in held) (left words.old)
        ≡ told colors_in result (left words.new) }
    ensures all { IfOk result (λ h. h.count ≡ n) }
    ensures list { words.new.words ≡ words.old.words }
{
    if n <= held.count {
        return Ok(held);
    }
    let first = words.take(1, bd, 1 << bd)?;
    let level = Level(first as u16);
    held.insert(level);
    read_more(words, held, n, bd, level)
}

// The size, and that many colours.
pub fn read_colors(words: &mut Reading, bd: u32, cache: &[u16]) -> Result<Held, Refusal>
    requires { (8 ≤ bd) × (bd ≤ 12) }
    ensures reads { read_colors bd cache.now (left words.old) ≡ told colors_in result (left words.new) }
    ensures two { IfOk result (λ h. 2 ≤ h.count) }
    ensures list { words.new.words ≡ words.old.words }
{
    let size = words.take(3, 0, 7)?;
    let n = size as usize + 2;
    let held = read_cache(words, cache, n)?;
    read_literals(words, held, n, bd)
}
