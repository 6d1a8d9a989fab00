// The sizes of a palette: head, lower bound and order. The block's tests have passed before these are called.
#![tactic(auto)]

ghost use Rattle.std.specs.Prelude.{◌≡◌, true, false, ℕ, min, ◌≤◌, length, get_or};
ghost use Rattle.std.specs.Float.{nan};
ghost use Rattle.literals.specs.Literals.{levels_ok};
ghost use Rattle.sizes.specs.Sizes.{head_of, least_row, fewest_lines, lb_of, size_of};
ghost use Rattle.sizes.specs.Order.{those, next_in, all_sizes, sizes_to};
ghost use Rattle.sizes.specs.Known.{Known};

use groups::{Groups, Histogram, Tables};

// What is the same for all sizes of a block.
#[derive(Clone, Copy)]
pub struct Block {
    pub width: usize,
    pub height: usize,
    pub bd: u32,
    pub lambda: f32,
}

impl Block {
    // The fewest lines of a map.
    fn fewest_lines(&self) -> usize
        ensures { result ≡ fewest_lines self.now.width self.now.height }
    {
        if counts::orient_sent(self.width, self.height) {
            self.width.min(self.height)
        } else {
            self.height
        }
    }
}

// A size: its colours, the bits before its map, and the cost that its place in the order goes by.
#[derive(Clone, Copy)]
pub struct Size {
    pub n: usize,
    pub colors: [u16; 8],
    pub head: f32,
    pub lb: f32,
}

// The sizes of a block of 2 to 32 levels: what they are worked out from.
#[derive(Clone, Copy)]
pub struct Sizes<'a> {
    pub costs: &'a [f32],
    pub block: Block,
    pub histogram: &'a Histogram,
    pub tables: &'a Tables,
    pub ghost priced: { length costs.now ≡ 301 },
    pub ghost sides: { (block.width ≤ 64) × (block.height ≤ 64) },
    pub ghost depth: { (8 ≤ block.bd) × (block.bd ≤ 12) },
    pub ghost known: { ∥ Known costs.now block histogram.now tables.now.costs tables.now.cuts ∥₁ },
}

impl<'a> Sizes<'a> {
    pub fn new(costs: &'a [f32], block: Block, histogram: &'a Histogram, tables: &'a Tables) -> Self
        requires { Known costs.now block histogram.now tables.now.costs tables.now.cuts }
        ensures { (result.costs.now ≡ costs.now) × (result.block ≡ block) × (result.histogram.now ≡ histogram.now)
            × (result.tables.now ≡ tables.now) }
    {
        Sizes {
            costs,
            block,
            histogram,
            tables,
        }
    }

    // The bits before the map: mode, size, colours as literals, orientation.
    fn head_of(&self, colors: &[u16]) -> f32
        requires { (2 ≤ length colors.now) × (length colors.now ≤ 8)
            × (levels_ok self.now.block.bd colors.now ≡ true) }
        ensures { result ≡ head_of self.now.costs.now self.now.block colors.now }
    {
        let b = self.block;
        let size = self.costs[2 + (colors.len() - 2)];
        let literal = literals::literal_bits(colors, b.bd);
        let sent = u8::from(counts::orient_sent(b.width, b.height));
        self.costs[1] - self.costs[0] + size + literal as f32 + sent as f32
    }

    fn lb_of(&self, error: f32, head: f32) -> f32
        ensures { result ≡ lb_of self.now.costs.now self.now.block error head }
    {
        let lines = self.block.fewest_lines() as f32;
        error + self.block.lambda * (head + lines * least_row(self.costs))
    }

    // The size of k colours.
    pub fn size_of(&self, k: usize) -> Size
        requires { (2 ≤ k) × (k ≤ 8) × (k ≤ self.now.histogram.now.n) }
        ensures { result ≡ size_of self.now.costs.now self.now.block self.now.histogram.now k }
    {
        let Groups { colors, error } = groups::groups_of(self.histogram, self.tables, k);
        let head = self.head_of(&colors[..k]);
        Size {
            n: k,
            colors,
            head,
            lb: self.lb_of(samples::narrow(error), head),
        }
    }

    // Each size's `lb`, at its number of colours.
    pub fn lbs_of(&self) -> [f32; 9]
        ensures { (k : ℕ) → 2 ≤ k → k ≤ 8 → k ≤ self.now.histogram.now.n
            → get_or result k nan ≡ (size_of self.now.costs.now self.now.block self.now.histogram.now k).lb }
    {
        let mut lbs = [0.0f32; 9];
        for k in 2..last_size(self.histogram.n) + 1 {
            lbs[k] = self.size_of(k).lb;
        }
        lbs
    }
}

// The least of the twelve row costs.
fn least_row(costs: &[f32]) -> f32
    requires { length costs.now ≡ 301 }
    ensures { result ≡ least_row costs.now }
{
    let mut least = f32::INFINITY;
    for cost in &costs[9..21] {
        if *cost < least {
            least = *cost;
        }
    }
    least
}

// The most colours of a size, with so many levels.
pub fn last_size(levels: usize) -> usize
    ensures { result ≡ min 8 levels }
{
    levels.min(8)
}

// Which sizes there are with so many levels.
pub fn open_sizes(levels: usize) -> [bool; 9]
    ensures { those (λ (k : ℕ). get_or result k false) all_sizes ≡ sizes_to levels }
{
    [
        false,
        false,
        2 <= levels,
        3 <= levels,
        4 <= levels,
        5 <= levels,
        6 <= levels,
        7 <= levels,
        8 <= levels,
    ]
}

// The first of the cheapest sizes that are open.
pub fn next_size(lbs: &[f32; 9], open: &[bool; 9]) -> Option<usize>
    ensures { result ≡ next_in (λ (k : ℕ). get_or lbs.now k nan)
        (those (λ (k : ℕ). get_or «open».now k false) all_sizes) }
{
    let mut best: Option<usize> = None;
    for k in 2..9 {
        if open[k] {
            let leads = match best {
                Some(first) => lbs[k] < lbs[first],
                None => true,
            };
            if leads {
                best = Some(k);
            }
        }
    }
    best
}
