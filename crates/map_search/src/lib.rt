// The map search: for each line the cheapest of copy, constant and cell by cell. Functions may have a `requires`.
#![tactic(auto)]

ghost use Rattle.std.specs.Prelude.{◌≡◌, ◌+◌, ◌*◌, ◌-◌, ◌≤◌, ◌<◌, cond, eqb, length, get_or};
ghost use Rattle.std.specs.Float.{nan, binary32};
ghost use Rattle.std.specs.Float.Ieee.{add};
ghost use Rattle.context.specs.Map.{row_at, col_at};
ghost use Rattle.near.specs.Near.{Below};
ghost use Rattle.cells.specs.Cell.{square, total_of, cheapest, eight};
ghost use Rattle.cells.specs.Sure.{Priced};
ghost use Rattle.scan.specs.Scan.{cell_in, fill, key_in, Sound};
ghost use Rattle.map_search.specs.Lines.{dist_line, row_cost, cell_at, copied_by, line_of, put_line, map_of};
ghost use Rattle.map_search.specs.Parts.{best_of, Halted, constant_by, constants_by, Built};
ghost use Rattle.map_search.specs.declared.Choice.{Choice};

use cells::{Cell, Cost, Pricing};
use context::Index;
use near::Key;
use rows::{Codes, Tables};
use scan::Scan;

// A line's candidate; index is that of a constant line.
// Stays (1): flag is a number, as the definitions (`put_line`, `row_cost`) and the buffer of the flags have it.
#[derive(Clone, Copy)]
pub struct Choice {
    pub cost: Cost,
    pub flag: u8,
    pub index: u8,
}

// Eight sums, each with one square more.
fn add_squares(t: [f32; 8], x: f32, colors: &[f32; 8]) -> [f32; 8]
    ensures { result ≡ eight (λ c. add binary32 (get_or t c nan) (square x (get_or colors.now c nan))) }
{
    let d = cells::squares(x, colors);
    [
        t[0] + d[0],
        t[1] + d[1],
        t[2] + d[2],
        t[3] + d[3],
        t[4] + d[4],
        t[5] + d[5],
        t[6] + d[6],
        t[7] + d[7],
    ]
}

// The line that is all of index c; k is the row of its first cell, whose costs are `rates`.
fn constant(
    dists: &[f32; 8],
    rates: &[f32; 8],
    codes: &Codes,
    k: usize,
    row: f32,
    c: usize,
) -> Choice
    requires { (c < 8) × (k < 512) }
    ensures { result ≡ constant_by dists.now rates.now k row c }
{
    let rank = codes.rank_at(k, Index(c as u8));
    let cost = Cost {
        dist: dists[c],
        rate: row + rates[usize::from(rank.0)],
    };
    Choice {
        cost,
        flag: 1,
        index: c as u8,
    }
}

// The cost of a flag under its context.
fn row_cost(costs: &[f32], ctx: usize, flag: usize) -> f32
    requires { (ctx ≤ 3) × (flag ≤ 2) × (length costs.now ≡ 301) }
    ensures { result ≡ row_cost costs.now ctx flag }
{
    costs[9 + ctx * 3 + flag]
}

// What the copy and the constants of a line are measured by: the samples in the order of a scan, and the colours.
// Apart from `Search`, which would ask for more, a cap, skips and the order table.
#[derive(Clone, Copy)]
struct Distances<'a> {
    samples: &'a [f32],
    scan: Scan,
    colors: &'a [f32; 8],
    ghost sound: { Sound scan (length samples.now) },
}

impl Distances<'_> {
    // The distance of line l from each colour.
    fn const_dists(&self, l: usize) -> [f32; 8]
        requires { l < self.now.scan.lines }
        ensures { result ≡ eight (λ c. dist_line self.now.samples.now self.now.colors.now self.now.scan l (λ a. c) self.now.scan.len) }
    {
        let s = self.scan;
        let mut t = [0.0f32; 8];
        for a in 0..s.len {
            let p = s.place(l, a);
            let u = add_squares(t, self.samples[p], self.colors);
            t = u;
        }
        t
    }

    // The distance of line l from the line before it.
    fn copy_dist(&self, map: &[u8], l: usize) -> f32
        requires { (length self.now.samples.now ≤ length map.now) × (l < self.now.scan.lines) × (0 < l) × Below map.now 8 }
        ensures { result ≡ dist_line self.now.samples.now self.now.colors.now self.now.scan l
            (λ a. cell_in map.now self.now.scan (l - 1) a) self.now.scan.len }
    {
        let s = self.scan;
        let mut t = 0.0f32;
        for a in 0..s.len {
            let p = s.place(l, a);
            let q = s.place(l - 1, a);
            let i = usize::from(map[q]);
            t = t + cells::square(self.samples[p], self.colors[i]);
        }
        t
    }

    // The first candidate of line l: the copy, or on the first line the constant of index 0.
    fn first_of(&self, map: &[u8], l: usize, row: f32, zero: Choice) -> Choice
        requires { (length self.now.samples.now ≤ length map.now) × (l < self.now.scan.lines) × Below map.now 8 }
        ensures { result ≡ cond (eqb l 0) zero
            (copied_by self.now.samples.now self.now.colors.now self.now.scan map.now l row) }
    {
        if l == 0 {
            return zero;
        }
        let cost = Cost {
            dist: self.copy_dist(map, l),
            rate: row,
        };
        Choice {
            cost,
            flag: 2,
            index: 0,
        }
    }
}

// The cheapest of a candidate and the constants, the first of the cheapest.
// Stays (5): as `best_by`.
fn best_const(
    dists: &[f32; 8],
    rates: &[f32; 8],
    codes: &Codes,
    k: usize,
    row: f32,
    n: usize,
    lambda: f32,
    from: Choice,
) -> Choice
    requires { (n ≤ 8) × (k < 512) }
    ensures { result ≡ cheapest (λ (c : Choice). total_of c.cost lambda) from (constants_by dists.now rates.now k row 0 n) }
{
    let mut best = from;
    let mut least = from.cost.total(lambda);
    for c in 0..n {
        let next = constant(dists, rates, codes, k, row, c);
        let total = next.cost.total(lambda);
        if total < least {
            best = next;
            least = total;
        }
    }
    best
}

// As `line_best`, by the row m of the line's first cell: the constants ask for none.
// Stays (5): a `Search` would ask for more, a cap, skips and the order table.
pub fn best_by(
    src: &[f32],
    map: &[u8],
    costs: &[f32],
    colors: &[f32; 8],
    s: Scan,
    l: usize,
    n: usize,
    lambda: f32,
    ctx: usize,
    m: Key,
    codes: &Codes,
) -> Choice
    requires sound { Sound s (length src.now) × (length src.now ≤ length map.now) × (l < s.lines) × (ctx ≤ 3) }
    requires le_n { (2 ≤ n) × (n ≤ 8) × (length costs.now ≡ 301) × Below map.now n × (m ≡ key_in map.now s l 0) }
    ensures { result ≡ best_of src.now costs.now colors.now n lambda s map.now l ctx }
{
    let distances = Distances {
        samples: src,
        scan: s,
        colors,
    };
    let rates = cells::rates(costs, n, m.ctx, l == 0);
    let dists = distances.const_dists(l);
    let row = row_cost(costs, ctx, 1);
    let zero = constant(&dists, &rates, codes, m.row, row, 0);
    let copy = row_cost(costs, ctx, 2);
    let from = distances.first_of(map, l, copy, zero);
    best_const(&dists, &rates, codes, m.row, row, n, lambda, from)
}

// What a map is searched for: the samples in the order of a scan, with what is made once for a size, and the tables.
#[derive(Clone, Copy)]
pub struct Search<'a> {
    pub samples: &'a [f32],
    pub scan: Scan,
    pub pricing: &'a Pricing<'a>,
    pub tables: &'a Tables<'a>,
    pub ghost sound: { Sound scan (length samples.now) },
}

impl<'a> Search<'a> {
    // The cheapest index of cell a of line l.
    fn one_cell(&self, map: &[u8], l: usize, a: usize) -> Cell
        requires { (length self.now.samples.now ≤ length map.now) × (l < self.now.scan.lines) × (a < self.now.scan.len)
            × Below map.now self.now.pricing.now.n
            × Priced self.now.pricing.now.costs.now self.now.pricing.now.lambda }
        ensures { let p = self.now.pricing.now in
            result ≡ cell_at self.now.samples.now p.costs.now p.colors p.n p.lambda self.now.scan map.now l a }
    {
        let x = self.samples[self.scan.place(l, a)];
        let m = self.scan.key_cell(map, &self.tables.codes, l, a);
        if l + a == 0 {
            let rates = self.pricing.rates(m.ctx, true);
            return self.pricing.choose(&self.tables.orders, m.row, &rates, x);
        }
        self.pricing.quick_cell(self.tables, m.row, m.ctx, x)
    }

    // Line l cell by cell, into the map: its cost. It stops where the total has reached the limit.
    fn cell_by_cell(&self, map: &mut [u8], l: usize, row: f32, limit: f32) -> Cost
        requires { (length self.now.samples.now ≤ length map.old) × (l < self.now.scan.lines) × Below map.old self.now.pricing.now.n
            × Priced self.now.pricing.now.costs.now self.now.pricing.now.lambda }
        ensures { let p = self.now.pricing.now in
            Halted self.now.samples.now p.costs.now p.colors p.n p.lambda self.now.scan map.old l row limit result map.new }
    {
        let mut cost = Cost {
            dist: 0.0,
            rate: row,
        };
        for a in 0..self.scan.len {
            let v = self.one_cell(map, l, a);
            let p = self.scan.place(l, a);
            map[p] = v.index;
            // By itself, so that the cell need not stand in memory.
            let d = v.cost;
            cost = cost + d;
            if cost.total(self.pricing.lambda) >= limit {
                return cost;
            }
        }
        cost
    }

    // The row of the first cell of line l, asked once for all constants of the line. In the first line nothing is asked:
    // the order is that of the indices.
    fn first_key(&self, map: &[u8], l: usize) -> Key
        requires { (row_at self.now.scan.transposed l 0 * self.now.scan.w + col_at self.now.scan.transposed l 0 < length map.now)
            × Below map.now 8 }
        ensures { result ≡ key_in map.now self.now.scan l 0 }
    {
        if l == 0 {
            return near::edge_key(Index(0));
        }
        self.scan.key_cell(map, &self.tables.codes, l, 0)
    }

    // As `line_best`, by the row m of the line's first cell.
    pub fn best_by(&self, map: &[u8], l: usize, ctx: usize, m: Key) -> Choice
        requires { (length self.now.samples.now ≤ length map.now) × (l < self.now.scan.lines) × (ctx ≤ 3)
            × Below map.now self.now.pricing.now.n × (m ≡ key_in map.now self.now.scan l 0) }
        ensures { let p = self.now.pricing.now in
            result ≡ best_of self.now.samples.now p.costs.now p.colors p.n p.lambda self.now.scan map.now l ctx }
    {
        let p = self.pricing;
        best_by(
            self.samples,
            map,
            p.costs,
            &p.colors,
            self.scan,
            l,
            p.n,
            p.lambda,
            ctx,
            m,
            &self.tables.codes,
        )
    }

    // The cheapest of copy and constants.
    fn line_best(&self, map: &[u8], l: usize, ctx: usize) -> Choice
        requires { (length self.now.samples.now ≤ length map.now) × (l < self.now.scan.lines) × (ctx ≤ 3)
            × Below map.now self.now.pricing.now.n }
        ensures { let p = self.now.pricing.now in
            result ≡ best_of self.now.samples.now p.costs.now p.colors p.n p.lambda self.now.scan map.now l ctx }
    {
        let m = self.first_key(map, l);
        self.best_by(map, l, ctx, m)
    }

    // The constant or the copy into the map.
    fn put_best(&self, map: &mut [u8], l: usize, best: Choice)
        requires { Sound self.now.scan (length map.old) × (l < self.now.scan.lines) × (((best.flag ≡ 1) → ⊥) → 0 < l) }
        ensures { map.new ≡ cond (eqb best.flag 1) (fill self.now.scan l (λ a. best.index) map.old self.now.scan.len)
            (fill self.now.scan l (λ a. cell_in map.old self.now.scan (l - 1) a) map.old self.now.scan.len) }
    {
        if best.flag == 1 {
            self.scan.fill_line(map, l, best.index);
        } else {
            self.scan.copy_line(map, l);
        }
    }

    // As `choose_line`, by the cheapest of copy and constants.
    pub fn choose_from(&self, map: &mut [u8], l: usize, ctx: usize, best: Choice) -> Choice
        requires { let p = self.now.pricing.now in
            (length self.now.samples.now ≤ length map.old) × (length map.old ≤ 4096) × (l < self.now.scan.lines) × (ctx ≤ 3)
            × Below map.old p.n
            × (best ≡ best_of self.now.samples.now p.costs.now p.colors p.n p.lambda self.now.scan map.old l ctx)
            × Priced p.costs.now p.lambda }
        ensures value { let p = self.now.pricing.now in
            result ≡ line_of self.now.samples.now p.costs.now p.colors p.n p.lambda self.now.scan map.old l ctx }
        ensures map_after { let p = self.now.pricing.now in
            map.new ≡ put_line self.now.samples.now p.costs.now p.colors p.n p.lambda self.now.scan map.old l ctx result }
    {
        let lambda = self.pricing.lambda;
        let row = row_cost(self.pricing.costs, ctx, 0);
        let limit = best.cost.total(lambda);
        let own = self.cell_by_cell(map, l, row, limit);
        if own.total(lambda) < limit {
            return Choice {
                cost: own,
                flag: 0,
                index: 0,
            };
        }
        self.put_best(map, l, best);
        best
    }

    // The cheapest candidate of line l, under the flag context ctx, into the map.
    fn choose_line(&self, map: &mut [u8], l: usize, ctx: usize) -> Choice
        requires { (length self.now.samples.now ≤ length map.old) × (length map.old ≤ 4096) × (l < self.now.scan.lines) × (ctx ≤ 3)
            × Below map.old self.now.pricing.now.n
            × Priced self.now.pricing.now.costs.now self.now.pricing.now.lambda }
        ensures value { let p = self.now.pricing.now in
            result ≡ line_of self.now.samples.now p.costs.now p.colors p.n p.lambda self.now.scan map.old l ctx }
        ensures map_after { let p = self.now.pricing.now in
            map.new ≡ put_line self.now.samples.now p.costs.now p.colors p.n p.lambda self.now.scan map.old l ctx result }
    {
        let best = self.line_best(map, l, ctx);
        self.choose_from(map, l, ctx, best)
    }

    // The map and its flags, line by line: its cost, or None where the bound is reached.
    pub fn build_map(&self, head: f32, bound: f32, map: &mut [u8], flags: &mut [u8]) -> Option<Cost>
        requires { (length self.now.samples.now ≤ length map.old) × (length map.old ≤ 4096) × (self.now.scan.lines ≤ length flags.old)
            × Below map.old self.now.pricing.now.n × Priced self.now.pricing.now.costs.now self.now.pricing.now.lambda }
        ensures { let p = self.now.pricing.now in
            Built (map_of self.now.samples.now p.costs.now p.colors p.n p.lambda self.now.scan head bound map.old flags.old)
            result map.new flags.new }
    {
        let lambda = self.pricing.lambda;
        let mut cost = Cost {
            dist: 0.0,
            rate: 0.0,
        };
        let mut ctx: usize = 3;
        for l in 0..self.scan.lines {
            let c = self.choose_line(map, l, ctx);
            flags[l] = c.flag;
            cost = cost + c.cost;
            if cost.dist + lambda * (head + cost.rate) >= bound {
                return None;
            }
            ctx = usize::from(c.flag);
        }
        Some(cost)
    }
}
