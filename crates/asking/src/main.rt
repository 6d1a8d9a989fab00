// A test copy of the map search that counts how often the context is asked for constant lines (document 02, L3).
// The copy is `walk`, of `Search::build_map` with `choose_line` and `line_best` opened, and `ask`, of `first_key`; it
// carries the askings through, and all that is below them is the search's own. The contract of `walk` says the counts, of
// every map; that `ask` counts where it asks, and asks where `first_key` does, is to be read.
// Around it stand copies of the search's walk through the sizes, which promise nothing: what they print is run.
// The program takes blocks as `replay_blocks` does, and prints a line for each map search: the block's place, the number
// of colours, the orientation, the lines reached, the askings in the first line, those in later lines, and 1 where the
// real map search gives the same map, flags, error and bits. The expected lines reached come from the original with a
// counter, and the expected askings from document 02, never from here (oracle/README.md).
// Functions here may have a `requires`.
#![tactic(auto)]

ghost use Rattle.std.specs.Prelude.{◌≡◌, cond, ◌+◌, ◌*◌, ◌≤◌, ◌<◌, eqb, length};
ghost use Rattle.context.specs.Map.{row_at, col_at};
ghost use Rattle.near.specs.Near.{Below};
ghost use Rattle.cells.specs.Sure.{Priced};
ghost use Rattle.scan.specs.Scan.{key_in};
ghost use Rattle.map_search.specs.Lines.{map_of};
ghost use Rattle.map_search.specs.Parts.{Built};
ghost use Rattle.search.specs.Search.{histogram_in};
ghost use Rattle.search.specs.Steps.{Passed, Zeros};
ghost use Rattle.asking.specs.Asking.{lines_reached, AskedOnce};

use cells::Cost;
use context::Index;
use map_search::Search;
use near::Key;
use replaying::{BlockHead, Blocks, bits_of};
use rows::Tables;
use scan::Scan;
use search::{Task, Trial};
use sizes::{Block, Size, Sizes};
use std::io;
use std::io::Write;

// How often the context was asked for constant lines.
#[derive(Clone, Copy)]
struct Askings {
    pub first: usize,
    pub later: usize,
}

// What was asked, and the askings so far.
#[derive(Drop)]
struct Asked {
    pub key: Key,
    pub askings: Askings,
}

// What a map search found, the lines that it reached, and its askings.
#[derive(Drop)]
struct Walked {
    pub found: Option<Cost>,
    pub lines: usize,
    pub askings: Askings,
}

// One asking more, in line l.
fn counted(a: Askings, l: usize) -> Askings
    requires { (a.first < 64) × (a.later < 64) }
    ensures { (result.first ≡ a.first + cond (eqb l 0) 1 0) × (result.later ≡ a.later + cond (eqb l 0) 0 1) }
{
    if 0 < l {
        return Askings {
            later: a.later + 1,
            ..a
        };
    }
    Askings {
        first: a.first + 1,
        ..a
    }
}

// The copy of `Search::first_key`.
fn ask(search: &Search, map: &[u8], l: usize, a: Askings) -> Asked
    requires l_in_bounds { (row_at search.now.scan.transposed l 0 * search.now.scan.w + col_at search.now.scan.transposed l 0 < length map.now)
        × Below map.now 8 }
    requires first_bound { (a.first < 64) × (a.later < 64) }
    ensures key_value { result.key ≡ key_in map.now search.now.scan l 0 }
    ensures first_value { (result.askings.first ≡ a.first) × (result.askings.later ≡ a.later + cond (eqb l 0) 0 1) }
{
    if l == 0 {
        return Asked {
            key: near::edge_key(Index(0)),
            askings: a,
        };
    }
    Asked {
        key: search.scan.key_cell(map, &search.tables.codes, l, 0),
        askings: counted(a, l),
    }
}

// The copy of `Search::build_map`.
fn walk(search: &Search, head: f32, bound: f32, map: &mut [u8], flags: &mut [u8]) -> Walked
    requires { (length search.now.samples.now ≤ length map.old) × (length map.old ≤ 4096) × (search.now.scan.lines ≤ length flags.old)
        × Below map.old search.now.pricing.now.n × Priced search.now.pricing.now.costs.now search.now.pricing.now.lambda }
    ensures built { let p = search.now.pricing.now in
        Built (map_of search.now.samples.now p.costs.now p.colors p.n p.lambda search.now.scan head bound map.old flags.old)
        result.found map.new flags.new }
    ensures asked_once { let p = search.now.pricing.now in
        AskedOnce result (lines_reached search.now.samples.now p.costs.now p.colors p.n p.lambda search.now.scan head bound
        map.old flags.old) }
{
    let lambda = search.pricing.lambda;
    let mut cost = Cost {
        dist: 0.0,
        rate: 0.0,
    };
    let mut askings = Askings { first: 0, later: 0 };
    let mut ctx: usize = 3;
    for l in 0..search.scan.lines {
        let asked = ask(search, map, l, askings);
        askings = asked.askings;
        let best = search.best_by(map, l, ctx, asked.key);
        let c = search.choose_from(map, l, ctx, best);
        flags[l] = c.flag;
        let d = c.cost;
        cost = cost + d;
        if cost.dist + lambda * (head + cost.rate) >= bound {
            return Walked {
                found: None,
                lines: l + 1,
                askings,
            };
        }
        ctx = usize::from(c.flag);
    }
    Walked {
        found: Some(cost),
        lines: search.scan.lines,
        askings,
    }
}

// A copy of `Trial::map_in`, with `walk`.
fn walk_in(
    trial: &Trial,
    transposed: bool,
    bound: f32,
    cells: &mut [u8],
    lines: &mut [u8],
) -> Walked
    requires { Zeros trial.now.block transposed cells.old lines.old }
{
    let search = Search {
        samples: trial.samples,
        scan: Scan::new(trial.block.width, trial.block.height, transposed),
        pricing: &trial.pricing,
        tables: trial.tables,
    };
    walk(&search, trial.size.head, bound, cells, lines)
}

// What a map search found, by its bits.
fn figures(found: Option<Cost>) -> Option<(u32, u32)> {
    found.map(|cost| (bits_of(cost.dist), bits_of(cost.rate)))
}

// The bound after a map search, a copy of what `BestMap::judge` keeps.
fn bound_after(bound: f32, lambda: f32, head: f32, found: Option<Cost>) -> f32 {
    let Some(cost) = found else {
        return bound;
    };
    let total = cost.dist + lambda * (head + cost.rate);
    if total < bound { total } else { bound }
}

// One orientation of a size: prints its line, with the real map beside the copy's, and gives the bound for the next one.
fn count_scan<W: Write>(
    out: &mut W,
    place: u64,
    trial: &Trial,
    transposed: bool,
    bound: f32,
) -> io::Result<f32> {
    let b = trial.block;
    let count = context::lines_of(transposed, b.width, b.height);
    let mut cells = [0u8; 4096];
    let mut lines = [0u8; 64];
    let mut real_cells = [0u8; 4096];
    let mut real_lines = [0u8; 64];
    let w = walk_in(
        trial,
        transposed,
        bound,
        &mut cells[..b.width * b.height],
        &mut lines[..count],
    );
    let found = trial.map_in(
        transposed,
        bound,
        &mut real_cells[..b.width * b.height],
        &mut real_lines[..count],
    );
    let same = figures(w.found) == figures(found) && cells == real_cells && lines == real_lines;
    write!(out, "{place} {} {}", trial.size.n, u8::from(transposed))?;
    write!(out, " {} {} {}", w.lines, w.askings.first, w.askings.later)?;
    writeln!(out, " {}", u8::from(same))?;
    Ok(bound_after(bound, b.lambda, trial.size.head, found))
}

// A copy of `Trial::both`.
fn count_size<W: Write>(
    out: &mut W,
    place: u64,
    task: &Task,
    size: Size,
    bound: f32,
) -> io::Result<f32>
    requires { (2 ≤ size.n) × (size.n ≤ 8) }
{
    let b = task.sizes.block;
    let trial = Trial::new(task, size);
    let plain = count_scan(out, place, &trial, false, bound)?;
    if !counts::orient_sent(b.width, b.height) {
        return Ok(plain);
    }
    count_scan(out, place, &trial, true, plain)
}

// A copy of `Task::find`. There are at most seven sizes, each of 2 to `last` colours: these tests serve the proof.
fn count_sizes<W: Write>(out: &mut W, place: u64, task: &Task) -> io::Result<()> {
    let lbs = task.sizes.lbs_of();
    let last = sizes::last_size(task.sizes.histogram.n);
    let mut left = sizes::open_sizes(task.sizes.histogram.n);
    let mut bound = f32::INFINITY;
    for _ in 0..7 {
        let Some(k) = sizes::next_size(&lbs, &left) else {
            break;
        };
        if k < 2 || last < k {
            break;
        }
        if lbs[k] >= bound {
            break;
        }
        bound = count_size(out, place, task, task.sizes.size_of(k), bound)?;
        left[k] = false;
    }
    Ok(())
}

// A copy of `Asked::search_levels`: a block of 2 to 32 levels that has passed the tests.
fn count_levels<W: Write>(
    out: &mut W,
    place: u64,
    a: &search::Asked,
    h: &groups::Histogram,
) -> io::Result<()>
    requires passed { Passed a.now.samples.now a.now.costs.now a.now.block 4096 64 }
    requires h_value { (h.now ≡ histogram_in a.now.samples.now) × (2 ≤ h.now.n) × (h.now.n ≤ 32) }
{
    let programme = groups::tables_of(h, sizes::last_size(h.n));
    let tables = Tables::new();
    let task = Task {
        samples: a.samples,
        sizes: Sizes::new(a.costs, a.block, h, &programme),
        tables: &tables,
    };
    count_sizes(out, place, &task)
}

// The map searches of a block; none where the search, with room for every map, refuses it.
fn count_block<W: Write>(
    out: &mut W,
    place: u64,
    head: BlockHead,
    samples: &[f32],
    costs: &[f32],
) -> io::Result<()> {
    let a = search::Asked {
        samples,
        costs,
        block: Block {
            width: head.width,
            height: head.height,
            bd: head.bd,
            lambda: head.lambda,
        },
        price: search::price_fault(head.lambda, costs),
    };
    let Ok(()) = a.fault(4096, 64) else {
        return Ok(());
    };
    let h = groups::histogram_of(samples, a.block.bd);
    let Ok(()) = search::levels_fault(h.n) else {
        return Ok(());
    };
    count_levels(out, place, &a, &h)
}

fn main(rt: HostRuntime) -> io::Result<()> {
    let mut input = rt.stdin();
    let mut out = rt.stdout();
    out.write_all(b"block colours orientation lines first later same\n")?;
    let mut blocks = Blocks::new();
    for place in 1..10000 {
        let Some(head) = blocks.next(&mut input)? else {
            break;
        };
        count_block(
            &mut out,
            place,
            head,
            blocks.samples(&head),
            blocks.costs(&head),
        )?;
    }
    Ok(())
}
