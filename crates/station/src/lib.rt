// The front door as C functions, for Rust and C to link. A slice is a pointer and a length. What a function returns beside
// its number goes to an array, which holds zeros after a refusal.
// Stays (1, 5): numbers for refusals, arrays lent for what is returned and parameters one by one are the C interface.
#![tactic(auto)]

ghost use Rattle.std.specs.Prelude.{◌≡◌, ◌∷◌, ◌++◌, length, ◌≤◌};
ghost use Rattle.counts.specs.Counts.{block_allowed};
ghost use Rattle.color_ctx.specs.Context.{context_of};
ghost use Rattle.costs.specs.Costs.{costs_number, costs_of};
ghost use Rattle.accept.specs.Palette.{palette_of};
ghost use Rattle.listing.specs.Listing.{Predicts};
ghost use Rattle.station.specs.Context.{context_words};
ghost use Rattle.station.specs.Listed.{ListsTo};
ghost use Rattle.reading.specs.Reading.{reading};
ghost use Rattle.search.specs.Search.{estimate_of};
ghost use Rattle.station.specs.Searched.{fields_of, SearchesTo};
ghost use Rattle.station.specs.Strip.{Few, row_of, rows_of, pairs_of, StripsTo};
ghost use Rattle.station.specs.Read.{ReadsTo};

use accept::Palette;

#[unsafe(no_mangle)]
pub extern "C" fn palette_block_allowed(bw4: usize, bh4: usize) -> bool
    ensures { result ≡ block_allowed bw4 bh4 }
{
    palette::block_allowed(bw4, bh4)
}

// A context, its order and its ranks in one array.
fn in_words(ctx: u32, order: [u8; 8], ranks: [u8; 8]) -> [u32; 17]
    ensures { result ≡ ctx ∷ order ++ ranks }
{
    let mut words = [0u32; 17];
    words[0] = ctx;
    words[1..9].copy_from_slice(&order.map(u32::from));
    words[9..].copy_from_slice(&ranks.map(u32::from));
    words
}

#[unsafe(no_mangle)]
pub extern "C" fn palette_context(
    map: &[u8],
    stride: usize,
    y: usize,
    x: usize,
    n: usize,
    context: &mut [u32; 17],
) -> u32
    ensures value { result ≡ (context_of map.now stride y x n).number }
    ensures context_after { context.new ≡ context_words (context_of map.now stride y x n) }
{
    let found = palette::color_ctx(map, stride, y, x, n);
    *context = in_words(found.ctx as u32, found.order, found.ranks);
    found.number
}

#[unsafe(no_mangle)]
pub extern "C" fn palette_costs(adapted: &[u16], costs: &mut [f32; 301]) -> u32
    ensures value { result ≡ costs_number adapted.now }
    ensures costs_after { costs.new ≡ costs_of adapted.now }
{
    let made = palette::make_costs(adapted);
    // Stays (4): an array's field that is stored straight gets no proof.
    let table = made.costs;
    *costs = table;
    made.number
}

// A palette's n, colours and orientation in one array.
fn in_fields(n: usize, colors: [u16; 8], transposed: bool) -> [u32; 10]
    requires { n ≤ 8 }
    ensures { result ≡ fields_of n colors transposed }
{
    let mut fields = [0u32; 10];
    fields[0] = n as u32;
    fields[1..9].copy_from_slice(&colors.map(u32::from));
    fields[9] = u32::from(transposed);
    fields
}

#[unsafe(no_mangle)]
pub extern "C" fn palette_search(
    samples: &[f32],
    width: usize,
    height: usize,
    bd: u32,
    lambda: f32,
    costs: &[f32],
    map: &mut [u8],
    flags: &mut [u8],
    found: &mut [u32; 10],
    bits: &mut [f32; 2],
) -> u32
    ensures { SearchesTo samples.now costs.now
        (record { width = width; height = height; bd = bd; lambda = lambda })
        map.old map.new flags.old flags.new
        found.new bits.new result }
{
    let answer = palette::search(samples, width, height, bd, lambda, costs, map, flags);
    *found = in_fields(answer.n, answer.colors, answer.transposed);
    *bits = [answer.head, answer.map_bits];
    answer.number
}

#[unsafe(no_mangle)]
pub extern "C" fn palette_estimate(head: f32, map: f32) -> f32
    ensures { result ≡ estimate_of head map }
{
    search::estimate(head, map)
}

// An answer's number, then its fields.
fn in_row(p: Palette) -> [u32; 11]
    requires { p.n ≤ 8 }
    ensures { result ≡ row_of p }
{
    let mut row = [0u32; 11];
    row[0] = p.number;
    row[1..].copy_from_slice(&in_fields(p.n, p.colors, p.transposed));
    row
}

// A row of eleven for each answer.
fn in_rows(answers: [Palette; 64]) -> [u32; 704]
    requires { Few answers }
    ensures { result ≡ rows_of answers }
{
    let mut rows = [0u32; 704];
    for (i, p) in answers.iter().enumerate() {
        let at = 11 * i;
        rows[at..at + 11].copy_from_slice(&in_row(*p));
    }
    rows
}

// Head and map bits of each answer.
fn in_pairs(answers: [Palette; 64]) -> [f32; 128]
    ensures { result ≡ pairs_of answers }
{
    let mut bits = [0.0f32; 128];
    for (i, p) in answers.iter().enumerate() {
        let at = 2 * i;
        bits[at..at + 2].copy_from_slice(&[p.head, p.map_bits]);
    }
    bits
}

#[unsafe(no_mangle)]
pub extern "C" fn palette_strip(
    sides: &[usize],
    samples: &[f32],
    bd: u32,
    lambda: f32,
    costs: &[f32],
    map: &mut [u8],
    flags: &mut [u8],
    answers: &mut [u32; 704],
    bits: &mut [f32; 128],
) -> u32
    ensures { StripsTo sides.now samples.now costs.now bd lambda
        map.old map.new flags.old flags.new answers.new bits.new result }
{
    let strip = palette::search_strip(sides, samples, bd, lambda, costs, map, flags);
    *answers = in_rows(strip.answers);
    *bits = in_pairs(strip.answers);
    strip.number
}

#[unsafe(no_mangle)]
pub extern "C" fn palette_list(
    width: usize,
    height: usize,
    bd: u32,
    colors: &[u16; 8],
    n: usize,
    transposed: bool,
    map: &[u8],
    flags: &[u8],
    cache: &[u16],
    words: &mut [u32],
    listed: &mut [u32; 2],
) -> u32
    ensures { ListsTo width height bd cache.now
        (palette_of colors.now n transposed map.now flags.now)
        words.old words.new listed.new result }
{
    let answer = palette::list(
        width, height, bd, *colors, n, transposed, map, flags, cache, words,
    );
    *listed = [answer.count as u32, answer.raw_width];
    answer.number
}

#[unsafe(no_mangle)]
pub extern "C" fn palette_pred(
    width: usize,
    height: usize,
    bd: u32,
    colors: &[u16; 8],
    n: usize,
    transposed: bool,
    map: &[u8],
    flags: &[u8],
    values: &mut [f32],
) -> u32
    ensures { Predicts width height bd (palette_of colors.now n transposed map.now flags.now)
        values.old values.new result }
{
    palette::pred(
        width, height, bd, *colors, n, transposed, map, flags, values,
    )
}

#[unsafe(no_mangle)]
pub extern "C" fn palette_read(
    width: usize,
    height: usize,
    bd: u32,
    cache: &[u16],
    words: &[u32],
    map: &mut [u8],
    flags: &mut [u8],
    read: &mut [u32; 10],
) -> u32
    ensures { ReadsTo
        (reading width height bd cache.now (length map.old) (length flags.old) words.now)
        map.old map.new flags.old flags.new read.new result }
{
    let answer = palette::read(width, height, bd, cache, words, map, flags);
    *read = in_fields(answer.n, answer.colors, answer.transposed);
    answer.number
}
