// A whole strip at once: up to 64 blocks searched in one call, each with its part of the buffers. Functions but
// `search_strip` may have a `requires`.
#![tactic(auto)]

ghost use Rattle.std.specs.Prelude.{◌≡◌, true, ◌+◌, ◌*◌, ◌≤◌, max, length};
ghost use Rattle.std.specs.List.{list_all};
ghost use Rattle.lists.specs.Counted.{within, all_in};
ghost use Rattle.refusals.specs.Numbers.{number};
ghost use Rattle.search.specs.Steps.{price_fault};
ghost use Rattle.strip.specs.Strip.{blocks_in, count_ok, strip_number, Searched, Strips};
ghost use Rattle.strip.specs.Steps.{places_to, Fits, SearchesAt};

use accept::Palette;
use refusals::Refusal;
use search::Asked;
use sizes::Block;

// The number, and an answer for each block; those past the count are all 0.
// Stays (1): the outward answer of `palette::search_strip`, with its number.
#[derive(Drop)]
pub struct Strip {
    pub number: u32,
    pub answers: [Palette; 64],
}

// How many places blocks take in samples and map, and how many in flags; so, where the next one's begin.
#[derive(Clone, Copy)]
pub struct Places {
    pub cells: usize,
    pub lines: usize,
}

// Number 19: one to 64 whole pairs.
fn count_ok(sides: usize) -> bool
    ensures { result ≡ count_ok sides }
{
    accept::within(1, 64, sides / 2) & (sides % 2 == 0)
}

// Number 1: each side is within 1..64.
fn sides_ok(sides: &[usize]) -> bool
    ensures { result ≡ list_all (within 1 64) sides.now }
{
    sides.iter().all(|side| accept::within(1, 64, *side))
}

impl Places {
    // The places up to and with one more block: width × height, and the longer side.
    fn past(self, width: usize, height: usize) -> Places
        requires { (width ≤ 64) × (height ≤ 64) × (self.cells ≤ 262144) × (self.lines ≤ 4096) }
        ensures { result ≡ record { cells = self.cells + width * height; lines = self.lines + max width height } }
    {
        Places {
            cells: self.cells + width * height,
            lines: self.lines + width.max(height),
        }
    }
}

// The places of all blocks.
fn places_of(sides: &[usize]) -> Places
    requires { (all_in (within 1 64) sides.now ≡ true) × (count_ok (length sides.now) ≡ true) }
    ensures { result ≡ places_to sides.now (blocks_in sides.now) }
{
    let mut at = Places { cells: 0, lines: 0 };
    let (pairs, _) = sides.as_chunks::<2>();
    for pair in pairs {
        at = at.past(pair[0], pair[1]);
    }
    at
}

// The first of 19, 1, 3 and 7 that applies.
#[tactic(auto, using(crate::proofs::Sides::all_is), unfolding(crate::specs::Strip::strip_number))]
fn fault(sides: &[usize], samples: usize, cells: usize, lines: usize) -> Result<(), Refusal>
    ensures { number result ≡ strip_number sides.now samples cells lines }
{
    if !count_ok(sides.len()) {
        return Err(Refusal::BlockCount);
    }
    if !sides_ok(sides) {
        return Err(Refusal::Side);
    }
    let all = places_of(sides);
    if samples != all.cells {
        return Err(Refusal::SampleCount);
    }
    if cells < all.cells || lines < all.lines {
        return Err(Refusal::Room);
    }
    Ok(())
}

// What the blocks share, and their samples one behind the other. Lambda and costs are tested once: `price` is what was said.
#[derive(Clone, Copy)]
struct Shared<'a> {
    samples: &'a [f32],
    bd: u32,
    lambda: f32,
    costs: &'a [f32],
    price: Result<(), Refusal>,
    ghost priced: { number price ≡ price_fault lambda costs.now },
}

impl Shared<'_> {
    // Searches one block, whose places begin at `at`.
    fn search_at(
        &self,
        width: usize,
        height: usize,
        at: Places,
        map: &mut [u8],
        flags: &mut [u8],
    ) -> Palette
        requires { Fits (record { width = width; height = height; bd = self.now.bd; lambda = self.now.lambda }) at
            (length self.now.samples.now) (length map.old) (length flags.old) }
        ensures { SearchesAt self.now.samples.now self.now.costs.now
            (record { width = width; height = height; bd = self.now.bd; lambda = self.now.lambda }) at
            map.old map.new flags.old flags.new result }
    {
        let end = at.past(width, height);
        let cells = at.cells;
        let cells_end = end.cells;
        let lines = at.lines;
        let lines_end = end.lines;
        let asked = Asked {
            samples: &self.samples[cells..cells_end],
            costs: self.costs,
            block: Block {
                width,
                height,
                bd: self.bd,
                lambda: self.lambda,
            },
            price: self.price,
        };
        asked.search(&mut map[cells..cells_end], &mut flags[lines..lines_end])
    }

    // Searches the blocks one after the other.
    fn search_all(&self, sides: &[usize], map: &mut [u8], flags: &mut [u8]) -> [Palette; 64]
        requires { strip_number sides.now (length self.now.samples.now) (length map.old) (length flags.old) ≡ 0 }
        ensures { Searched sides.now self.now.samples.now self.now.costs.now self.now.bd self.now.lambda
            map.old map.new flags.old flags.new (blocks_in sides.now) result }
    {
        let mut answers = [accept::blank(); 64];
        let mut at = Places { cells: 0, lines: 0 };
        let (pairs, _) = sides.as_chunks::<2>();
        for (i, pair) in pairs.iter().enumerate() {
            answers[i] = self.search_at(pair[0], pair[1], at, map, flags);
            at = at.past(pair[0], pair[1]);
        }
        answers
    }
}

// Searches up to 64 blocks, given by their width and height pairs, with samples one block after the other. Maps and flags are
// written at places taken in the same order, width × height and the longer side apart. A refused block's places are
// untouched; where the whole call is refused, all places are.
// Stays (5): as `palette::search_strip`, whose parameters the C interface gives one by one.
pub fn search_strip(
    sides: &[usize],
    samples: &[f32],
    bd: u32,
    lambda: f32,
    costs: &[f32],
    map: &mut [u8],
    flags: &mut [u8],
) -> Strip
    ensures { Strips sides.now samples.now costs.now bd lambda
        map.old map.new flags.old flags.new result }
{
    if let Err(refusal) = fault(sides, samples.len(), map.len(), flags.len()) {
        return Strip {
            number: refusal.number(),
            answers: [accept::blank(); 64],
        };
    }
    let shared = Shared {
        samples,
        bd,
        lambda,
        costs,
        price: search::price_fault(lambda, costs),
    };
    let answers = shared.search_all(sides, map, flags);
    Strip { number: 0, answers }
}
