// The front door: everything that is open to callers, each function for all arguments.
// Stays (1, 5): a number in each answer and parameters one by one, as README names them and the C interface gives them.
#![tactic(auto)]

ghost use Rattle.std.specs.Prelude.{◌≡◌, length};
ghost use Rattle.counts.specs.Counts.{block_allowed};
ghost use Rattle.color_ctx.specs.Context.{context_of};
ghost use Rattle.costs.specs.Costs.{MakesCosts};
ghost use Rattle.accept.specs.Palette.{palette_of};
ghost use Rattle.listing.specs.Listing.{Lists, Predicts};
ghost use Rattle.reading.specs.Reading.{reading, Reads};
ghost use Rattle.search.specs.Search.{estimate_of, Searches};
ghost use Rattle.strip.specs.Strip.{Strips};

use accept::Palette;
use color_ctx::Context;
use costs::Costs;
use listing::Listed;
use strip::Strip;

// Whether a block of these sides, in units of 4, may have a palette.
pub fn block_allowed(bw4: usize, bh4: usize) -> bool
    ensures { result ≡ block_allowed bw4 bh4 }
{
    counts::block_allowed(bw4, bh4)
}

// The context at row y and column x of an index map, with the order of the n indices there and their ranks.
pub fn color_ctx(map: &[u8], stride: usize, y: usize, x: usize, n: usize) -> Context
    ensures { result ≡ context_of map.now stride y x n }
{
    color_ctx::color_ctx(map, stride, y, x, n)
}

// Makes the 301 costs from a tile's adapted rows, or from the default rows where none are lent.
pub fn make_costs(adapted: &[u16]) -> Costs
    ensures { MakesCosts adapted.now result }
{
    costs::make_costs(adapted)
}

// Searches a block for its palette, whose map and flags are written from the front of `map` and `flags`; or refuses it and
// writes nothing.
pub fn search(
    samples: &[f32],
    width: usize,
    height: usize,
    bd: u32,
    lambda: f32,
    costs: &[f32],
    map: &mut [u8],
    flags: &mut [u8],
) -> Palette
    ensures { Searches samples.now costs.now
        (record { width = width; height = height; bd = bd; lambda = lambda })
        map.old map.new flags.old flags.new result }
{
    search::search(samples, width, height, bd, lambda, costs, map, flags)
}

// The bit estimate of a palette, which the original calls `bits`; 0 where head and map bits are.
pub fn estimate(p: Palette) -> f32
    ensures { result ≡ estimate_of p.head p.map_bits }
{
    search::estimate(p.head, p.map_bits)
}

// Searches up to 64 blocks, given by their width and height pairs, with samples one block after the other. Each block's map and
// flags are written, or left untouched, at places taken in the same order, width × height and the longer side apart; or the
// whole call is refused and nothing is written.
pub fn search_strip(
    sides: &[usize],
    samples: &[f32],
    bd: u32,
    lambda: f32,
    costs: &[f32],
    map: &mut [u8],
    flags: &mut [u8],
) -> Strip
    ensures { Strips sides.now samples.now costs.now bd lambda
        map.old map.new flags.old flags.new result }
{
    strip::search_strip(sides, samples, bd, lambda, costs, map, flags)
}

// Lists a palette's calls from the front of `words`, or refuses it and writes nothing.
pub fn list(
    width: usize,
    height: usize,
    bd: u32,
    colors: [u16; 8],
    n: usize,
    transposed: bool,
    map: &[u8],
    flags: &[u8],
    cache: &[u16],
    words: &mut [u32],
) -> Listed
    ensures { Lists width height bd cache.now
        (palette_of colors n transposed map.now flags.now) words.old words.new result }
{
    listing::list(
        width, height, bd, colors, n, transposed, map, flags, cache, words,
    )
}

// Each cell's colour as f32, from the front of `values`; or a refusal that writes nothing.
pub fn pred(
    width: usize,
    height: usize,
    bd: u32,
    colors: [u16; 8],
    n: usize,
    transposed: bool,
    map: &[u8],
    flags: &[u8],
    values: &mut [f32],
) -> u32
    ensures { Predicts width height bd (palette_of colors n transposed map.now flags.now)
        values.old values.new result }
{
    listing::pred(width, height, bd, colors, n, transposed, map, flags, values)
}

// Reads a call list back: colours and orientation are returned, map and flags written from the front of `map` and `flags`; or
// refuses it and writes nothing.
pub fn read(
    width: usize,
    height: usize,
    bd: u32,
    cache: &[u16],
    words: &[u32],
    map: &mut [u8],
    flags: &mut [u8],
) -> Palette
    ensures { Reads
        (reading width height bd cache.now (length map.old) (length flags.old) words.now)
        map.old map.new flags.old flags.new result }
{
    reading::read(width, height, bd, cache, words, map, flags)
}
