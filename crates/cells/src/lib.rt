// The choice of one cell's index among its candidates. Functions may have a `requires`.
#![tactic(auto)]

ghost use Rattle.std.specs.Prelude.{◌≡◌, ℕ, ◌+◌, ◌*◌, ◌≤◌, ◌<◌, false, cond, length, get_or, pos};
ghost use Rattle.std.specs.List.{list_all};
ghost use Rattle.std.specs.Float.{nan, binary32};
ghost use Rattle.std.specs.Float.Ieee.{lt, le, of_int};
ghost use Rattle.counts.specs.Counts.{uniform_bits};
ghost use Rattle.lists.specs.Counted.{all_below};
ghost use Rattle.cells.specs.Sure.{Capped, Skips, Sure, Priced, passed_by, sole_by};
ghost use Rattle.rows.specs.Rows.{row_order, order_row, Fits};
ghost use Rattle.cells.specs.Cell.{square, total_of, plus, eight, squares_of, rates_of, pick_at, chosen, cell_of};

use context::{Index, Rank};
use std::ops::Add;

// Distance and rate, kept together.
#[derive(Clone, Copy)]
pub struct Cost {
    pub dist: f32,
    pub rate: f32,
}

// The candidate that stands: its total, rank and index.
#[derive(Clone, Copy)]
pub struct Pick {
    pub total: f32,
    pub rank: usize,
    pub index: usize,
}

#[derive(Clone, Copy)]
pub struct Cell {
    pub index: u8,
    pub cost: Cost,
}

pub fn square(x: f32, c: f32) -> f32
    ensures { result ≡ square x c }
{
    let e = x - c;
    e * e
}

impl Cost {
    pub fn total(self, lambda: f32) -> f32
        ensures { result ≡ total_of self lambda }
    {
        self.dist + lambda * self.rate
    }
}

impl Add for Cost {
    type Output = Cost;

    ghost add_gives = { λ c d r. r ≡ plus c d };

    fn add(self, d: Cost) -> Cost {
        Cost {
            dist: self.dist + d.dist,
            rate: self.rate + d.rate,
        }
    }
}

pub fn squares(x: f32, colors: &[f32; 8]) -> [f32; 8]
    ensures { result ≡ squares_of x colors.now }
{
    [
        square(x, colors[0]),
        square(x, colors[1]),
        square(x, colors[2]),
        square(x, colors[3]),
        square(x, colors[4]),
        square(x, colors[5]),
        square(x, colors[6]),
        square(x, colors[7]),
    ]
}

fn uniform(v: u8, n: u8) -> f32
    requires { n ≤ 8 }
    ensures { result ≡ of_int binary32 (pos (uniform_bits v n)) }
{
    counts::uniform_bits(u32::from(v), u32::from(n)) as u16 as f32
}

fn uniform_rates(n: u8) -> [f32; 8]
    requires { n ≤ 8 }
    ensures { result ≡ eight (λ k. of_int binary32 (pos (uniform_bits k n))) }
{
    [
        uniform(0, n),
        uniform(1, n),
        uniform(2, n),
        uniform(3, n),
        uniform(4, n),
        uniform(5, n),
        uniform(6, n),
        uniform(7, n),
    ]
}

fn eight_from(costs: &[f32], at: usize) -> [f32; 8]
    requires { at + 8 ≤ length costs.now }
    ensures { result ≡ eight (λ k. get_or costs.now (at + k) nan) }
{
    [
        costs[at],
        costs[at + 1],
        costs[at + 2],
        costs[at + 3],
        costs[at + 4],
        costs[at + 5],
        costs[at + 6],
        costs[at + 7],
    ]
}

// Told by three numbers, not by a struct: so the compiler keeps them apart.
fn better(p: Pick, total: f32, rank: usize, index: usize) -> Pick
    ensures { result ≡ cond (lt total p.total) (record { total = total; rank = rank; index = index }) p }
{
    if total < p.total {
        Pick { total, rank, index }
    } else {
        p
    }
}

// The candidate of rank q; the order is a row of the table.
fn candidate(
    dists: &[f32; 8],
    rates: &[f32; 8],
    orders: &rows::Orders,
    row: usize,
    q: usize,
    lambda: f32,
) -> Pick
    requires { (row < 512) × (q < 8) }
    ensures { result ≡ pick_at dists.now rates.now lambda q (get_or (order_row row) q 0) }
{
    let found = orders.index_at(row, Rank(q as u8));
    let index = usize::from(found.0);
    Pick {
        total: dists[index] + lambda * rates[q],
        rank: q,
        index,
    }
}

// The first of the cheapest candidates in rank order.
fn pick_by(
    dists: &[f32; 8],
    rates: &[f32; 8],
    orders: &rows::Orders,
    row: usize,
    n: usize,
    lambda: f32,
) -> Pick
    requires { Fits row n × (0 < n) × (n ≤ 8) }
    ensures value { result ≡ chosen dists.now rates.now lambda (row_order row n) }
    ensures inside { (result.index < n) × (result.rank < 8) }
{
    let mut best = candidate(dists, rates, orders, row, 0, lambda);
    for q in 1..n {
        let next = candidate(dists, rates, orders, row, q, lambda);
        best = better(best, next.total, q, next.index);
    }
    best
}

// The largest of the costs. It may be any number: `none_above` tests it.
fn highest(costs: &[f32]) -> f32 {
    costs
        .iter()
        .fold(0.0, |most, cost| if most < *cost { *cost } else { most })
}

fn none_above(costs: &[f32], most: f32) -> bool
    ensures { result ≡ list_all (λ cost. le cost most) costs.now }
{
    costs.iter().all(|cost| *cost <= most)
}

// What no cost of a cell among n colours exceeds; or nan.
pub fn cap_of(costs: &[f32], n: usize) -> f32
    requires { (2 ≤ n) × (n ≤ 8) × (length costs.now ≡ 301) }
    ensures { Capped costs.now n result }
{
    let at = 21 + (n - 2) * 40;
    let row = &costs[at..at + 40];
    let most = highest(row);
    if 0.0 <= most {
        if none_above(row, most) {
            return most;
        }
    }
    0.0 / 0.0
}

// Half way between two colours; past the last colour none.
fn mark(colors: &[f32; 8], i: usize, n: usize) -> f32
    requires { i < 7 }
{
    if i + 1 < n {
        return (colors[i] + colors[i + 1]) * 0.5;
    }
    1.0 / 0.0
}

// The marks for `guess`; they may be any numbers.
pub fn marks_of(colors: &[f32; 8], n: usize) -> [f32; 8] {
    [
        mark(colors, 0, n),
        mark(colors, 1, n),
        mark(colors, 2, n),
        mark(colors, 3, n),
        mark(colors, 4, n),
        mark(colors, 5, n),
        mark(colors, 6, n),
        0.0,
    ]
}

// An index that may be the nearest: how many of the seven marks lie below x.
fn guess(x: f32, marks: &[f32; 8]) -> usize
    ensures { result < 8 }
{
    usize::from(marks[0] < x)
        + usize::from(marks[1] < x)
        + usize::from(marks[2] < x)
        + usize::from(marks[3] < x)
        + usize::from(marks[4] < x)
        + usize::from(marks[5] < x)
        + usize::from(marks[6] < x)
}

// For each index b eight places: whether index i is past n, or b itself.
pub fn skips_of(n: usize) -> [bool; 64]
    ensures { Skips n result }
{
    let mut skips = [false; 64];
    for (j, skip) in skips.iter_mut().enumerate() {
        *skip = (n <= j % 8) | (j % 8 == j / 8);
    }
    skips
}

// Index i is skipped, or farther than top.
fn passed(dists: &[f32; 8], top: f32, skips: &[bool; 64], at: usize, i: usize) -> bool
    requires { (i < 8) × (at + 8 ≤ 64) }
    ensures { result ≡ passed_by dists.now top skips.now at i }
{
    skips[at + i] | (top < dists[i])
}

// Whether all others are farther than top.
fn alone(dists: &[f32; 8], top: f32, skips: &[bool; 64], at: usize) -> bool
    requires { at + 8 ≤ 64 }
    ensures { result ≡ all_below (passed_by dists.now top skips.now at) 8 }
{
    passed(dists, top, skips, at, 7)
        & (passed(dists, top, skips, at, 6)
            & (passed(dists, top, skips, at, 5)
                & (passed(dists, top, skips, at, 4)
                    & (passed(dists, top, skips, at, 3)
                        & (passed(dists, top, skips, at, 2)
                            & (passed(dists, top, skips, at, 1)
                                & (passed(dists, top, skips, at, 0) & true)))))))
}

// The cell of index b, with its rank from the table.
fn sole_cell(dists: &[f32; 8], rates: &[f32; 8], codes: &rows::Codes, row: usize, b: usize) -> Cell
    requires { (row < 512) × (b < 8) }
    ensures { result ≡ sole_by dists.now rates.now row b }
{
    let rank = codes.rank_at(row, Index(b as u8));
    let cost = Cost {
        dist: dists[b],
        rate: rates[usize::from(rank.0)],
    };
    Cell {
        index: b as u8,
        cost,
    }
}

// A cell's cost by rank; `first` at (0,0).
pub fn rates(costs: &[f32], n: usize, ctx: usize, first: bool) -> [f32; 8]
    requires { (2 ≤ n) × (n ≤ 8) × (ctx < 5) × (length costs.now ≡ 301) }
    ensures { result ≡ rates_of costs.now n ctx first }
{
    if first {
        return uniform_rates(n as u8);
    }
    eight_from(costs, 21 + ((n - 2) * 5 + ctx) * 8)
}

// The cheapest index for the sample x, the first of the cheapest in rank order.
// Stays (5): a `Pricing` would ask for more, the length of the costs and two colours.
pub fn choose_cell(
    x: f32,
    colors: &[f32; 8],
    orders: &rows::Orders,
    row: usize,
    rates: &[f32; 8],
    n: usize,
    lambda: f32,
) -> Cell
    requires { Fits row n × (0 < n) × (n ≤ 8) }
    ensures { result ≡ cell_of (squares_of x colors.now) rates.now lambda (row_order row n) }
{
    let dists = squares(x, colors);
    let p = pick_by(&dists, rates, orders, row, n, lambda);
    let cost = Cost {
        dist: dists[p.index],
        rate: rates[p.rank],
    };
    Cell {
        index: p.index as u8,
        cost,
    }
}

// What is made once for a size.
#[derive(Drop)]
pub struct Pricing<'a> {
    pub costs: &'a [f32],
    pub n: usize,
    pub lambda: f32,
    pub colors: [f32; 8],
    pub marks: [f32; 8],
    pub cap: f32,
    pub skips: [bool; 64],
    pub ghost few: { (2 ≤ n) × (n ≤ 8) },
    pub ghost full: { length costs.now ≡ 301 },
    pub ghost sure: { ∥ Sure costs.now n cap skips ∥₁ },
}

impl<'a> Pricing<'a> {
    pub fn new(costs: &'a [f32], colors: [f32; 8], n: usize, lambda: f32) -> Self
        requires { (2 ≤ n) × (n ≤ 8) × (length costs.now ≡ 301) }
        ensures { (result.costs.now ≡ costs.entry.now) × (result.n ≡ n) × (result.lambda ≡ lambda) × (result.colors ≡ colors) }
    {
        let marks = marks_of(&colors, n);
        let cap = cap_of(costs, n);
        let skips = skips_of(n);
        Pricing {
            costs,
            n,
            lambda,
            colors,
            marks,
            cap,
            skips,
        }
    }

    // A cell's cost by rank; `first` at (0,0).
    pub fn rates(&self, ctx: usize, first: bool) -> [f32; 8]
        requires { ctx < 5 }
        ensures { result ≡ rates_of self.now.costs.now self.now.n ctx first }
    {
        rates(self.costs, self.n, ctx, first)
    }

    // The cheapest index for the sample x, the first of the cheapest in rank order. In line, so that no cell stands in memory:
    // what is put there in parts and taken as a whole is waited for.
    #[inline(always)]
    pub fn choose(&self, orders: &rows::Orders, row: usize, rates: &[f32; 8], x: f32) -> Cell
        requires { Fits row self.now.n }
        ensures { result ≡ cell_of (squares_of x self.now.colors) rates.now self.now.lambda (row_order row self.now.n) }
    {
        choose_cell(x, &self.colors, orders, row, rates, self.n, self.lambda)
    }

    // As `choose`, but not for (0,0): at once where one index is the cheapest whatever the ranks.
    // Stays (5): `Priced` is asked here and by whom this serves, since `rates` and `choose` never asked for it.
    pub fn quick_cell(&self, tables: &rows::Tables, row: usize, ctx: usize, x: f32) -> Cell
        requires { Fits row self.now.n × (ctx < 5) × Priced self.now.costs.now self.now.lambda }
        ensures { result ≡ cell_of (squares_of x self.now.colors) (rates_of self.now.costs.now self.now.n ctx false)
            self.now.lambda (row_order row self.now.n) }
    {
        let rates = self.rates(ctx, false);
        let dists = squares(x, &self.colors);
        let b = guess(x, &self.marks);
        if b < self.n {
            let top = dists[b] + self.lambda * self.cap;
            if alone(&dists, top, &self.skips, b * 8) {
                return sole_cell(&dists, &rates, &tables.codes, row, b);
            }
        }
        self.choose(&tables.orders, row, &rates, x)
    }
}
