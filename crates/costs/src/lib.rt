// The 301 costs of the palette symbols from their cumulative rows, in sixteenths of a bit.
#![tactic(auto)]

ghost use Rattle.std.specs.Prelude.{◌≡◌, ◌⊎◌, ◌+◌, ◌<◌, ◌≤◌, length, get_or, IfOk};
ghost use Rattle.lists.specs.Counted.{part, each};
ghost use Rattle.refusals.specs.Numbers.{number};
ghost use Rattle.tables.specs.Icdf.{color_rows};
ghost use Rattle.costs.specs.Cost.{cost_of, sixteenths};
ghost use Rattle.costs.specs.Thresholds.{threshold_table};
ghost use Rattle.costs.specs.Rows.{before, chance_of, row_at, defaults, number_ok, row_ok, rows_ok};
ghost use Rattle.costs.specs.Costs.{cost_in, table_costs, table_of, costs_number, MakesCosts};

use refusals::Refusal;
use std::array;

// t[c] is the largest p with 2^c * p^16 <= 2^240. From 171 on neighbours may be equal: the last one counts.
static THRESHOLDS: [u16; 241] = [
    32768, 31378, 30048, 28774, 27554, 26386, 25267, 24196, 23170, 22188, 21247, 20346, 19483,
    18657, 17866, 17109, 16384, 15689, 15024, 14387, 13777, 13193, 12633, 12098, 11585, 11094,
    10623, 10173, 9741, 9328, 8933, 8554, 8192, 7844, 7512, 7193, 6888, 6596, 6316, 6049, 5792,
    5547, 5311, 5086, 4870, 4664, 4466, 4277, 4096, 3922, 3756, 3596, 3444, 3298, 3158, 3024, 2896,
    2773, 2655, 2543, 2435, 2332, 2233, 2138, 2048, 1961, 1878, 1798, 1722, 1649, 1579, 1512, 1448,
    1386, 1327, 1271, 1217, 1166, 1116, 1069, 1024, 980, 939, 899, 861, 824, 789, 756, 724, 693,
    663, 635, 608, 583, 558, 534, 512, 490, 469, 449, 430, 412, 394, 378, 362, 346, 331, 317, 304,
    291, 279, 267, 256, 245, 234, 224, 215, 206, 197, 189, 181, 173, 165, 158, 152, 145, 139, 133,
    128, 122, 117, 112, 107, 103, 98, 94, 90, 86, 82, 79, 76, 72, 69, 66, 64, 61, 58, 56, 53, 51,
    49, 47, 45, 43, 41, 39, 38, 36, 34, 33, 32, 30, 29, 28, 26, 25, 24, 23, 22, 21, 20, 19, 19, 18,
    17, 16, 16, 15, 14, 14, 13, 12, 12, 11, 11, 10, 10, 9, 9, 9, 8, 8, 8, 7, 7, 7, 6, 6, 6, 5, 5,
    5, 5, 4, 4, 4, 4, 4, 4, 3, 3, 3, 3, 3, 3, 2, 2, 2, 2, 2, 2, 2, 2, 2, 2, 1, 1, 1, 1, 1, 1, 1, 1,
    1, 1, 1, 1, 1, 1, 1, 1,
];

// The number of the answer, and the 301 costs; zeros where the number is not 0.
// Stays (1): `station` hands it over to C, and document 02's `MakesCosts` speaks of the number and the costs.
#[derive(Drop)]
pub struct Costs {
    pub number: u32,
    pub costs: [f32; 301],
}

// A row of a table: where it starts, how many of its numbers are used, and how many places it has.
#[derive(Clone, Copy)]
pub struct Row {
    pub at: usize,
    pub used: usize,
    pub room: usize,
}

// The thresholds, all 241 as the document has them. Counting passes the first by, so the contract of `cost_of` alone would
// let that one be wrong.
fn all_thresholds() -> &'static [u16; 241]
    ensures { result.now ≡ threshold_table }
{
    &THRESHOLDS
}

// The cost of probability p in sixteenths of a bit: the last c whose threshold is at least p. Thresholds never rise, so it is
// the number of those behind the first that are; counting takes eight of them at once, where halving jumps by p.
pub fn cost_of(p: u16) -> u16
    ensures { result ≡ cost_of p }
{
    let mut c: u16 = 0;
    for threshold in &all_thresholds()[1..] {
        if p <= *threshold {
            c += 1;
        }
    }
    c
}

// c / 16
fn sixteenth(c: u16) -> f32
    ensures { result ≡ sixteenths c }
{
    f32::from(c) / 16.0
}

// Number i of a row; 0 past its end.
fn number_at(row: &[u16], i: usize) -> u16
    ensures { result ≡ get_or row.now i 0 }
{
    row.get(i).copied().unwrap_or(0)
}

// What stands before symbol s of a row.
fn number_before(row: &[u16], s: usize) -> u16
    ensures { result ≡ before row.now s }
{
    if s == 0 {
        return 32768;
    }
    number_at(row, s - 1)
}

// The probability of symbol s; 0 where a row does not fall.
fn chance(row: &[u16], s: usize) -> u16
    ensures { result ≡ chance_of row.now s }
{
    number_before(row, s).saturating_sub(number_at(row, s))
}

// The cost of symbol s of a row; unused ones cost 0.
#[tactic(auto, unfolding(crate::specs::Costs::cost_in))]
fn cost_in(row: &[u16], s: usize) -> f32
    ensures { result ≡ cost_in row.now s }
{
    if row.len() < s {
        return 0.0;
    }
    sixteenth(cost_of(chance(row, s)))
}

// The costs of a row's symbols, and zeros for the unused ones behind them.
fn put_costs(row: &[u16], costs: &mut [f32])
    ensures { costs.new ≡ each (cost_in row.now) (length costs.old) }
{
    for (s, cost) in costs.iter_mut().enumerate() {
        *cost = cost_in(row, s);
    }
}

// Row r: mode, size, one for each of four line contexts, then one for each of five contexts for each n from 2.
#[tactic(auto, unfolding(crate::specs::Rows::row_at))]
fn row_at(r: usize) -> Row
    requires { r < 41 }
    ensures row { result ≡ row_at r }
    ensures inside { (result.used ≤ result.room) × (result.at + result.room ≤ 260) }
{
    let (at, used, room) = match r {
        0 => (0, 1, 1),
        1 => (1, 6, 6),
        2..=5 => (7 + (r - 2) * 2, 2, 2),
        _ => (15 + (r - 6) * 7, (r - 6) / 5 + 1, 7),
    };
    Row { at, used, room }
}

// The row comes from the adapted table when one is lent, else from the default.
fn row_of<'a>(adapted: &'a [u16], default: &'a [u16], at: usize, len: usize) -> &'a [u16]
    requires { (at + len ≤ 260) × (length default.now ≡ 260) × ((length adapted.now ≡ 0) ⊎ (length adapted.now ≡ 260)) }
    ensures { result.now ≡ part (table_of adapted.now default.now) at len }
{
    if adapted.is_empty() {
        return &default[at..at + len];
    }
    &adapted[at..at + len]
}

// All the costs: each row has one more of them than it has places.
fn all_costs<'a>(adapted: &'a [u16], default: &'a [u16]) -> [f32; 301]
    requires { (length default.now ≡ 260) × ((length adapted.now ≡ 0) ⊎ (length adapted.now ≡ 260)) }
    ensures { result ≡ table_costs (table_of adapted.now default.now) }
{
    let mut costs = [0.0f32; 301];
    for r in 0..41 {
        let row = row_at(r);
        let from = row.at + r;
        let used = row_of(adapted, default, row.at, row.used);
        put_costs(used, &mut costs[from..from + row.room + 1]);
    }
    costs
}

// Number k of the default table: mode 2723, then the source's three tables.
fn default_at(colors: &[u16], k: usize) -> u16
    requires { (colors.now ≡ color_rows) × (k < 260) }
    ensures { result ≡ get_or defaults k 0 }
{
    match k {
        0 => 2723,
        1..=6 => tables::y_size_icdf(k - 1),
        7..=14 => tables::row_icdf((k - 7) / 2, (k - 7) % 2),
        _ => colors[k - 15],
    }
}

// The default table, laid out as an adapted one.
fn default_table() -> [u16; 260]
    ensures { result ≡ defaults }
{
    let colors = tables::color_rows();
    array::from_fn(|k| default_at(&colors, k))
}

// A used number falls from what stands before it to at least 1, an unused one is 0.
fn number_ok(row: &[u16], used: usize, s: usize) -> bool
    ensures { result ≡ number_ok used row.now s }
{
    let x = number_at(row, s);
    if s < used {
        return (1 <= x) & (x < number_before(row, s));
    }
    x == 0
}

// Whether a row is accepted whose first `used` numbers are in use.
fn row_ok(row: &[u16], used: usize) -> bool
    ensures { result ≡ row_ok used row.now }
{
    for s in 0..row.len() {
        if !number_ok(row, used, s) {
            return false;
        }
    }
    true
}

// Number 25 where this is false.
fn rows_ok(table: &[u16]) -> bool
    requires { length table.now ≡ 260 }
    ensures { result ≡ rows_ok table.now }
{
    for r in 0..41 {
        let row = row_at(r);
        if !row_ok(&table[row.at..row.at + row.room], row.used) {
            return false;
        }
    }
    true
}

// The costs of an adapted table, or of the default one where none is lent.
#[tactic(auto, unfolding(crate::specs::Costs::costs_number))]
fn costs_of(adapted: &[u16]) -> Result<[f32; 301], Refusal>
    ensures refused { number result ≡ costs_number adapted.now }
    ensures made { IfOk result (λ costs. costs ≡ table_costs (table_of adapted.now defaults)) }
{
    if !adapted.is_empty() {
        if adapted.len() != 260 {
            return Err(Refusal::AdaptedLength);
        }
        if !rows_ok(adapted) {
            return Err(Refusal::AdaptedRows);
        }
    }
    Ok(all_costs(adapted, &default_table()))
}

// The 301 costs from an adapted table, or from the default where none is lent.
pub fn make_costs(adapted: &[u16]) -> Costs
    ensures { MakesCosts adapted.now result }
{
    match costs_of(adapted) {
        Ok(costs) => Costs { number: 0, costs },
        Err(refusal) => Costs {
            number: refusal.number(),
            costs: [0.0f32; 301],
        },
    }
}
