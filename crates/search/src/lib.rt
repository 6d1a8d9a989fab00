// The search of a block: its tests, then the sizes in their order, each in both orientations. Functions but `search` may
// have a `requires`.
#![tactic(auto)]

ghost use Rattle.std.specs.Prelude.{◌≡◌, List, map, ◌*◌, ◌≤◌, length, Float};
ghost use Rattle.std.specs.Float.{binary32};
ghost use Rattle.refusals.specs.Numbers.{number};
ghost use Rattle.ieee.specs.Numbers.{nat};
ghost use Rattle.map_search.specs.Parts.{Built};
ghost use Rattle.search.specs.Search.{Standing, none, lower, map_in, tried, tried_both, searched, histogram_in, found_in, estimate_of, Searches};
ghost use Rattle.search.specs.Search.{large_ok, fault_of, levels_fault};
ghost use Rattle.search.specs.Steps.{price_fault, Passed, Zeros, Whole, Stands, Written};

use accept::Palette;
use cells::{Cost, Pricing};
use groups::Histogram;
use map_search::Search;
use refusals::Refusal;
use rows::Tables;
use scan::Scan;
use sizes::{Block, Size, Sizes};

// The best map so far, but for its cells and flags.
#[derive(Clone, Copy)]
pub struct Best {
    pub total: f32,
    pub n: usize,
    pub colors: [u16; 8],
    pub transposed: bool,
    pub head: f32,
    pub map_bits: f32,
}

// The bit estimate, which the original calls `bits`.
pub fn estimate(head: f32, map_bits: f32) -> f32
    ensures { result ≡ estimate_of head map_bits }
{
    (head + map_bits) * 3.0
}

// Number 8: a side of 16 or more.
fn large_ok(width: usize, height: usize) -> bool
    ensures { result ≡ large_ok width height }
{
    16 <= width || 16 <= height
}

// Number 4 or 5: of lambda and costs alone, which many blocks may share.
pub fn price_fault(lambda: f32, costs: &[f32]) -> Result<(), Refusal>
    ensures { number result ≡ price_fault lambda costs.now }
{
    if !samples::lambda_ok(lambda) {
        return Err(Refusal::Lambda);
    }
    if !samples::costs_ok(costs) {
        return Err(Refusal::Costs);
    }
    Ok(())
}

// Number 9 or 10.
pub fn levels_fault(levels: usize) -> Result<(), Refusal>
    ensures { number result ≡ levels_fault levels }
{
    if levels < 2 {
        return Err(Refusal::OneLevel);
    }
    if 32 < levels {
        return Err(Refusal::ManyLevels);
    }
    Ok(())
}

// The first of the numbers 1 to 8 that applies; `price` is what was said of lambda and costs, 4 or 5.
pub fn fault(
    samples: &[f32],
    b: Block,
    price: Result<(), Refusal>,
    cells: usize,
    lines: usize,
) -> Result<(), Refusal>
    ensures { (costs : List Float) → number price ≡ price_fault b.lambda costs
        → number result ≡ fault_of samples.now costs b cells lines }
{
    if !accept::sides_ok(b.width, b.height) {
        return Err(Refusal::Side);
    }
    if !accept::within(8, 12, b.bd as usize) {
        return Err(Refusal::Depth);
    }
    if samples.len() != b.width * b.height {
        return Err(Refusal::SampleCount);
    }
    price?;
    if !samples::samples_ok(samples, b.bd) {
        return Err(Refusal::Sample);
    }
    if !accept::rooms_ok(b.width, b.height, cells, lines) {
        return Err(Refusal::Room);
    }
    if !large_ok(b.width, b.height) {
        return Err(Refusal::Small);
    }
    Ok(())
}

// What was said of lambda and costs, by its number.
// Stays (1): as `fault_by`.
fn price_told(price: u32) -> Result<(), Refusal>
    ensures { (lambda : Float) (costs : List Float) → price ≡ price_fault lambda costs → number result ≡ price }
{
    match price {
        0 => Ok(()),
        4 => Err(Refusal::Lambda),
        _ => Err(Refusal::Costs),
    }
}

// As `fault`, by numbers: `price` is 4 or 5, or 0 where nothing was said.
// Stays (1): a `Result` would ask for more than any number.
pub fn fault_by(samples: &[f32], b: Block, price: u32, cells: usize, lines: usize) -> u32
    ensures { (costs : List Float) → price ≡ price_fault b.lambda costs
        → result ≡ fault_of samples.now costs b cells lines }
{
    match fault(samples, b, price_told(price), cells, lines) {
        Ok(()) => 0,
        Err(refusal) => refusal.number(),
    }
}

// The colours as f32.
pub fn values(colors: [u16; 8]) -> [f32; 8]
    ensures { result ≡ map (nat binary32) colors }
{
    colors.map(f32::from)
}

// The best map so far, with its cells and flags from the front.
#[derive(Drop)]
pub struct BestMap {
    pub best: Best,
    pub cells: [u8; 4096],
    pub lines: [u8; 64],
}

impl BestMap {
    // Before any map: no total is too high.
    fn new() -> Self
        ensures { Stands none result }
    {
        let best = Best {
            total: 1.0 / 0.0,
            n: 0,
            colors: [0u16; 8],
            transposed: false,
            head: 0.0,
            map_bits: 0.0,
        };
        BestMap {
            best,
            cells: [0u8; 4096],
            lines: [0u8; 64],
        }
    }

    // The next map stands, if its total is strictly lower.
    fn judge(&mut self, next: Best, cells: &[u8], lines: &[u8])
        requires { (length cells.now ≤ 4096) × (length lines.now ≤ 64) }
        ensures { (s : Standing) → Stands s self.old
            → Stands (lower s (record { best = next; map = cells.now; flags = lines.now })) self.new }
    {
        if next.total < self.best.total {
            lists::copy_front(cells, cells.len(), &mut self.cells);
            lists::copy_front(lines, lines.len(), &mut self.lines);
            self.best = next;
        }
    }

    // The palette of the best map, which is handed over.
    fn hand_over(&self, b: Block, map: &mut [u8], flags: &mut [u8]) -> Palette
        requires { (b.width * b.height ≤ 4096) × (b.width * b.height ≤ length map.old)
            × (b.width ≤ 64) × (b.height ≤ 64) × (b.width ≤ length flags.old) × (b.height ≤ length flags.old) }
        ensures { (s : Standing) → Stands s self.now → Whole b s → Written s map.old map.new flags.old flags.new result }
    {
        let best = self.best;
        let lines = context::lines_of(best.transposed, b.width, b.height);
        lists::copy_front(&self.cells, b.width * b.height, map);
        lists::copy_front(&self.lines, lines, flags);
        // Stays (4): an array's field that is laid in a value straight gets no proof.
        let colors = best.colors;
        Palette {
            number: 0,
            n: best.n,
            colors,
            transposed: best.transposed,
            head: best.head,
            map_bits: best.map_bits,
        }
    }
}

// A block that has passed the tests, and what its search is lent.
#[derive(Clone, Copy)]
pub struct Task<'a> {
    pub samples: &'a [f32],
    pub sizes: Sizes<'a>,
    pub tables: &'a Tables<'a>,
    pub ghost passed: { fault_of samples.now sizes.costs.now sizes.block 4096 64 ≡ 0 },
}

impl Task<'_> {
    // The sizes by ascending `lb`, up to one that is not below the best.
    fn find(&self, kept: &mut BestMap)
        requires { Stands none kept.old }
        ensures { let z = self.now.sizes in
            Stands (searched self.now.samples.now z.costs.now z.block z.histogram.now) kept.new }
    {
        let lbs = self.sizes.lbs_of();
        let mut left = sizes::open_sizes(self.sizes.histogram.n);
        while let Some(k) = sizes::next_size(&lbs, &left) {
            if lbs[k] >= kept.best.total {
                return;
            }
            Trial::new(self, self.sizes.size_of(k)).both(kept);
            left[k] = false;
        }
    }
}

// A size of a block, and what is made once for both its maps.
#[derive(Drop)]
pub struct Trial<'a> {
    pub samples: &'a [f32],
    pub block: Block,
    pub size: Size,
    pub pricing: Pricing<'a>,
    pub tables: &'a Tables<'a>,
    pub ghost passed: { fault_of samples.now pricing.costs.now block 4096 64 ≡ 0 },
    pub ghost sides: { (block.width ≤ 64) × (block.height ≤ 64) },
    pub ghost priced: { (pricing.lambda ≡ block.lambda) × (pricing.n ≡ size.n)
        × (pricing.colors ≡ map (nat binary32) size.colors) },
}

impl<'a> Trial<'a> {
    pub fn new(task: &Task<'a>, size: Size) -> Self
        requires { (2 ≤ size.n) × (size.n ≤ 8) }
        ensures { (result.samples.now ≡ task.now.samples.now) × (result.pricing.costs.now ≡ task.now.sizes.costs.now)
            × (result.block ≡ task.now.sizes.block) × (result.size ≡ size) }
    {
        let sizes = task.sizes;
        let colors = values(size.colors);
        Trial {
            samples: task.samples,
            block: sizes.block,
            size,
            pricing: Pricing::new(sizes.costs, colors, size.n, sizes.block.lambda),
            tables: task.tables,
        }
    }

    // The map in one orientation, or None where its total reaches the bound; cells and lines are zeros, as many as it needs.
    pub fn map_in(
        &self,
        transposed: bool,
        bound: f32,
        cells: &mut [u8],
        lines: &mut [u8],
    ) -> Option<Cost>
        requires { Zeros self.now.block transposed cells.old lines.old }
        ensures { let t = self.now in
            Built (map_in t.samples.now t.pricing.costs.now t.block t.size transposed bound) result cells.new lines.new }
    {
        let search = Search {
            samples: self.samples,
            scan: Scan::new(self.block.width, self.block.height, transposed),
            pricing: &self.pricing,
            tables: self.tables,
        };
        search.build_map(self.size.head, bound, cells, lines)
    }

    // As `one`, with the map made in cells and lines, which are zeros and just as many as it needs.
    fn one_in(&self, transposed: bool, cells: &mut [u8], lines: &mut [u8], kept: &mut BestMap)
        requires { Zeros self.now.block transposed cells.old lines.old }
        ensures { let t = self.now in (s : Standing) → Stands s kept.old
            → Stands (tried t.samples.now t.pricing.costs.now t.block t.size transposed s) kept.new }
    {
        if let Some(cost) = self.map_in(transposed, kept.best.total, cells, lines) {
            let z = self.size;
            let all = z.head + cost.rate;
            // Stays (4): an array's field that is laid in a value straight gets no proof.
            let colors = z.colors;
            let next = Best {
                total: cost.dist + self.block.lambda * all,
                n: z.n,
                colors,
                transposed,
                head: z.head,
                map_bits: cost.rate,
            };
            kept.judge(next, cells, lines);
        }
    }

    // One orientation.
    fn one(&self, transposed: bool, kept: &mut BestMap)
        ensures { let t = self.now in (s : Standing) → Stands s kept.old
            → Stands (tried t.samples.now t.pricing.costs.now t.block t.size transposed s) kept.new }
    {
        let b = self.block;
        let count = context::lines_of(transposed, b.width, b.height);
        let mut cells = [0u8; 4096];
        let mut lines = [0u8; 64];
        self.one_in(
            transposed,
            &mut cells[..b.width * b.height],
            &mut lines[..count],
            kept,
        );
    }

    // Plain, and then transposed.
    fn both(&self, kept: &mut BestMap)
        ensures { let t = self.now in (s : Standing) → Stands s kept.old
            → Stands (tried_both t.samples.now t.pricing.costs.now t.block t.size s) kept.new }
    {
        let b = self.block;
        self.one(false, kept);
        if counts::orient_sent(b.width, b.height) {
            self.one(true, kept);
        }
    }
}

// A block to search; `price` is what was said of its lambda and costs, which many blocks may share.
#[derive(Clone, Copy)]
pub struct Asked<'a> {
    pub samples: &'a [f32],
    pub costs: &'a [f32],
    pub block: Block,
    pub price: Result<(), Refusal>,
    pub ghost priced: { number price ≡ price_fault block.lambda costs.now },
}

impl Asked<'_> {
    // The first of the numbers 1 to 8 that applies.
    pub fn fault(&self, cells: usize, lines: usize) -> Result<(), Refusal>
        ensures { number result ≡ fault_of self.now.samples.now self.now.costs.now self.now.block cells lines }
    {
        fault(self.samples, self.block, self.price, cells, lines)
    }

    // The palette of a block that has passed the tests, with these levels; the tables are made here, once.
    fn search_levels(&self, h: &Histogram, map: &mut [u8], flags: &mut [u8]) -> Palette
        requires passed { Passed self.now.samples.now self.now.costs.now self.now.block (length map.old) (length flags.old) }
        requires levels { (h.now ≡ histogram_in self.now.samples.now) × (2 ≤ h.now.n) × (h.now.n ≤ 32) }
        ensures { Written (found_in self.now.samples.now self.now.costs.now self.now.block)
            map.old map.new flags.old flags.new result }
    {
        let programme = groups::tables_of(h, sizes::last_size(h.n));
        let tables = Tables::new();
        let task = Task {
            samples: self.samples,
            sizes: Sizes::new(self.costs, self.block, h, &programme),
            tables: &tables,
        };
        let mut kept = BestMap::new();
        task.find(&mut kept);
        kept.hand_over(self.block, map, flags)
    }

    // As `search`, behind the tests 1 to 8. The histogram is made only here: no refusal before it pays for one.
    fn search_tested(&self, map: &mut [u8], flags: &mut [u8]) -> Palette
        requires { Passed self.now.samples.now self.now.costs.now self.now.block (length map.old) (length flags.old) }
        ensures { Searches self.now.samples.now self.now.costs.now self.now.block
            map.old map.new flags.old flags.new result }
    {
        let h = groups::histogram_of(self.samples, self.block.bd);
        match levels_fault(h.n) {
            Ok(()) => self.search_levels(&h, map, flags),
            Err(refusal) => accept::refuse(refusal),
        }
    }

    // As `search`.
    pub fn search(&self, map: &mut [u8], flags: &mut [u8]) -> Palette
        ensures { Searches self.now.samples.now self.now.costs.now self.now.block
            map.old map.new flags.old flags.new result }
    {
        if let Err(refusal) = self.fault(map.len(), flags.len()) {
            return accept::refuse(refusal);
        }
        self.search_tested(map, flags)
    }
}

// Searches a block: its palette, with the map's cells and the flags written from the front; or a refusal that writes
// nothing.
// Stays (5): as `palette::search`, whose parameters the C interface gives one by one.
pub fn search(
    samples: &[f32],
    width: usize,
    height: usize,
    bd: u32,
    lambda: f32,
    costs: &[f32],
    map: &mut [u8],
    flags: &mut [u8],
) -> Palette
    ensures { Searches samples.now costs.now
        (record { width = width; height = height; bd = bd; lambda = lambda })
        map.old map.new flags.old flags.new result }
{
    let asked = Asked {
        samples,
        costs,
        block: Block {
            width,
            height,
            bd,
            lambda,
        },
        price: price_fault(lambda, costs),
    };
    asked.search(map, flags)
}
