// The levels of a block and their cut into groups: the histogram, the dynamic programme and the colours.
// Where a function has a `requires`, the crates above have tested it before they call.
#![tactic(auto)]

ghost use Rattle.std.specs.Prelude.{◌≡◌, true, map, ℕ, ◌+◌, ◌*◌, ◌^◌, ◌≤◌, ◌<◌, length, get_or, set, replicate, sum};
ghost use Rattle.std.specs.Float.{nan};
ghost use Rattle.ieee.specs.Bounds.{Within};
ghost use Rattle.samples.specs.Samples.{samples_ok, level_of};
ghost use Rattle.groups.specs.Histogram.{occurs, gathered, histogram_of, sum_to, HasLevels};
ghost use Rattle.groups.specs.Groups.{prefix_of, cost_of, best_of, sum_in, color_of, groups_of};
ghost use Rattle.groups.specs.Tables.{row_at, Filled, CutsOf, TablesOf};

// The levels that occur, ascending: how many there are, and of each of the first 32 its count, sum and sum of
// squares.
// Stays (5): three functions ask for `HasLevels`, which is no ghost field, since a block may have more than 32 levels.
// Stays (6): three arrays, since the theorems of quality speak of three lists, and each sum runs over one alone.
#[derive(Clone, Copy)]
pub struct Histogram {
    pub n: usize,
    pub w: [u64; 32],
    pub s: [u64; 32],
    pub q: [u64; 32],
}

// One pass over the samples, then one over the counts.
pub fn histogram_of(samples: &[f32], bd: u32) -> Histogram
    requires { (8 ≤ bd) × (bd ≤ 12) × (length samples.now ≤ 4096) × (samples_ok bd samples.now ≡ true) }
    ensures { result ≡ histogram_of (map level_of samples.now) }
{
    let mut counts = [0u16; 4096];
    count_levels(samples, &mut counts);
    gather(&counts[..usize::from(counts::top_level(bd)) + 1])
}

// How often each level occurs.
fn count_levels(samples: &[f32], counts: &mut [u16; 4096])
    requires samples_len_bound { (length samples.now ≤ 4096)
        × ((i : ℕ) → i < length samples.now → Within (get_or samples.now i nan) 4095) }
    requires counts_value { counts.old ≡ replicate 4096 0 }
    ensures { (v : ℕ) → v < 4096
        → get_or counts.new v 0 ≡ occurs (map level_of samples.now) v }
{
    for x in samples {
        let v = usize::from(samples::level_of(*x));
        counts[v] += 1;
    }
}

// The levels that occur, of those that are counted.
fn gather(counts: &[u16]) -> Histogram
    requires { (length counts.now ≤ 4096) × ((v : ℕ) → v < length counts.now → get_or counts.now v 0 ≤ 4096) }
    ensures { result ≡ gathered (λ (v : ℕ). get_or counts.now v 0) (length counts.now) }
{
    let mut w = [0u64; 32];
    let mut s = [0u64; 32];
    let mut q = [0u64; 32];
    let mut n: usize = 0;
    for (v, count) in counts.iter().enumerate() {
        let c = u64::from(*count);
        if c != 0 {
            let x = v as u64;
            put(&mut w, n, c);
            put(&mut s, n, c * x);
            put(&mut q, n, c * (x * x));
            n += 1;
        }
    }
    Histogram { n, w, s, q }
}

// Stores x where there is a place for it: past 32 levels only their number counts.
fn put(xs: &mut [u64], at: usize, x: u64)
    ensures { xs.new ≡ set xs.old at x }
{
    if at < xs.len() {
        xs[at] = x;
    }
}

// The sums of the first 0, 1, .. numbers.
fn prefix(xs: &[u64; 32]) -> [f64; 33]
    requires { (i : ℕ) → i < 32 → get_or xs.now i 0 ≤ 2 ^ 53 }
    ensures { result ≡ prefix_of xs.now }
{
    let mut out = [0.0f64; 33];
    for (i, x) in xs.iter().enumerate() {
        out[i + 1] = out[i] + *x as f64;
    }
    out
}

// A least cost, and where the last group starts.
#[derive(Clone, Copy)]
pub struct Best {
    pub cost: f64,
    pub cut: usize,
}

// The tables of the programme, in rows of 33: at k * 33 + j the least cost of the first j levels in k groups, and
// where the last of these groups starts.
// Stays (6): two arrays, since `Filled`, `Tabled` and `CutsOf` speak of two lists.
#[derive(Drop)]
pub struct Tables {
    pub costs: [f64; 297],
    pub cuts: [usize; 297],
}

// The prefix sums of a histogram's counts, sums and sums of squares.
#[derive(Drop)]
struct Prefixes {
    w: [f64; 33],
    s: [f64; 33],
    q: [f64; 33],
}

impl Prefixes {
    // The cost of the levels i..j.
    fn cost(&self, i: usize, j: usize) -> f64
        requires { (i < 33) × (j < 33) }
        ensures { result ≡ cost_of self.now.w self.now.s self.now.q i j }
    {
        let w = self.w[j] - self.w[i];
        let s = self.s[j] - self.s[i];
        (self.q[j] - self.q[i]) - s * s / w
    }

    // The least cost of the first j levels in k + 1 groups, from the row of k groups: the earliest of equal cuts stands.
    fn best_cut(&self, costs: &[f64; 297], k: usize, j: usize) -> Best
        requires { (k ≤ 7) × (j ≤ 32) }
        ensures { result ≡ best_of self.now.w self.now.s self.now.q (row_at costs.now (k * 33)) k j }
    {
        let base = k * 33;
        let mut b = Best {
            cost: f64::INFINITY,
            cut: k,
        };
        for i in k..j {
            let c = costs[base + i] + self.cost(i, j);
            if c < b.cost {
                b = Best { cost: c, cut: i };
            }
        }
        b
    }

    // Row k + 1 of the tables, from row k.
    fn fill_row(&self, n: usize, k: usize, tables: &mut Tables)
        requires { (n ≤ 32) × (k ≤ 7) }
        ensures { Filled self.now.w self.now.s self.now.q k (n + 1)
            tables.old.costs tables.new.costs tables.old.cuts tables.new.cuts }
    {
        for j in 0..n + 1 {
            let b = self.best_cut(&tables.costs, k, j);
            let at = k * 33 + 33 + j;
            tables.costs[at] = b.cost;
            tables.cuts[at] = b.cut;
        }
    }
}

// The tables up to kmax groups.
pub fn tables_of(h: &Histogram, kmax: usize) -> Tables
    requires { (kmax ≤ 8) × HasLevels h.now }
    ensures { TablesOf h.now kmax result.costs result.cuts }
{
    let sums = Prefixes {
        w: prefix(&h.w),
        s: prefix(&h.s),
        q: prefix(&h.q),
    };
    let mut tables = Tables {
        costs: [f64::INFINITY; 297],
        cuts: [0usize; 297],
    };
    tables.costs[0] = 0.0;
    for k in 0..kmax {
        sums.fill_row(h.n, k, &mut tables);
    }
    tables
}

// The groups of a size: their colours, ascending, then zeros; and their error by levels.
#[derive(Clone, Copy)]
pub struct Groups {
    pub colors: [u16; 8],
    pub error: f64,
}

pub fn groups_of(h: &Histogram, tables: &Tables, k: usize) -> Groups
    requires { (k ≤ 8) × (k ≤ h.now.n) × HasLevels h.now × TablesOf h.now k tables.now.costs tables.now.cuts }
    ensures { result ≡ groups_of h.now k }
{
    let e = tables.costs[k * 33 + h.n];
    Groups {
        colors: centers(h, &tables.cuts, k),
        // Stays (4): `e.max(0.0)` may give -0.0 for -0.0, which `floored` does not.
        error: if e > 0.0 { e } else { 0.0 },
    }
}

// The colours, from the last group back to the first.
fn centers(h: &Histogram, cuts: &[usize; 297], k: usize) -> [u16; 8]
    requires { (k ≤ 8) × (k ≤ h.now.n) × HasLevels h.now × CutsOf h.now k cuts.now }
    ensures { result ≡ (groups_of h.now k).colors }
{
    let mut colors = [0u16; 8];
    let mut j = h.n;
    for g in (0..k).rev() {
        let i = cuts[g * 33 + 33 + j];
        colors[g] = color(h, i, j);
        j = i;
    }
    colors
}

// The colour of the levels i..j: their mean, rounded half up.
fn color(h: &Histogram, i: usize, j: usize) -> u16
    requires { (i < j) × (j ≤ 32) × (sum_to h.now.w j ≤ 4096)
        × (0 < sum_in h.now.w i j) × (sum_in h.now.s i j ≤ 4095 * sum_in h.now.w i j) }
    ensures { result ≡ color_of h.now.w h.now.s i j }
{
    let dw = total(&h.w[i..j]);
    let ds = total(&h.s[i..j]);
    ((2 * ds + dw) / (2 * dw)) as u16
}

fn total(xs: &[u64]) -> u64
    requires { sum xs.now < 2 ^ 64 }
    ensures { result ≡ sum xs.now }
{
    xs.iter().sum()
}
