// The block report: a step takes the block at the front of a text, prints its line and adds it to the page's totals.
// Open to the program only: functions may require room, and a page of fewer than 10,000 lines.
#![tactic(auto)]

ghost use Rattle.std.specs.Prelude.{◌≡◌, [], ◌∷◌, ◌++◌, ◌+◌, ◌<◌, ◌≤◌, length};
ghost use Rattle.lists.specs.Written.{written};
ghost use Rattle.printing.specs.Printing.{field};
ghost use Rattle.blocks.specs.Block.{Few};
ghost use Rattle.reporting.specs.Fraction.{gcd, fraction};
ghost use Rattle.reporting.specs.Report.{block_line, last_line};
ghost use Rattle.reporting.specs.Steps.{blank, with, next_block, Steps, Fits};

use blocks::Block;
use refusals::Refusal;

// How many block lines were printed, and their totals.
// Stays (5): that it `Fits` is no ghost field, since `page_of` speaks of the pages of any blocks.
#[derive(Clone, Copy)]
pub struct Page {
    pub lines: u32,
    pub calls: u32,
    pub cells: u32,
    pub raw: u32,
}

// A step: how many bytes it printed, how many it took (0 where the reading has ended), and the page after it.
// Stays (1): `Steps` and the theorem `StepsReport` have the number taken, which is a block's.
#[derive(Drop)]
pub struct Stepped {
    pub count: usize,
    pub taken: usize,
    pub page: Page,
}

#[derive(Drop)]
pub struct Fraction {
    pub numerator: u32,
    pub denominator: u32,
}

pub fn blank_page() -> Page
    ensures { result ≡ blank }
{
    Page {
        lines: 0,
        calls: 0,
        cells: 0,
        raw: 0,
    }
}

// The page with one block more.
fn add(p: Page, b: Block) -> Page
    requires { Fits p × (p.lines ≤ 9999) × Few b }
    ensures { (result ≡ with p b) × Fits result }
{
    Page {
        lines: p.lines + 1,
        calls: p.calls + b.calls,
        cells: p.cells + b.cells,
        raw: p.raw + b.raw,
    }
}

// The next block of a text that is not empty: after the 9,999th it is one too many.
fn next_block(s: &[u8], p: Page) -> Block
    ensures { (result ≡ next_block p s.now) × Few result }
{
    if p.lines == 9999 {
        return blocks::refuse(Refusal::BlockCount.number(), 0);
    }
    let mut words = [0u32; 4234];
    blocks::take_block(s, &mut words)
}

// The greatest common divisor, by Euclid.
fn gcd_of(a: u32, b: u32) -> u32
    ensures { result ≡ gcd a b }
{
    let mut x = a;
    let mut y = b;
    while y != 0 {
        (x, y) = (y, x % y);
    }
    x
}

// a / b in lowest terms; 0 and 1 where b is 0.
fn fraction_of(a: u32, b: u32) -> Fraction
    ensures { result.numerator ∷ result.denominator ∷ [] ≡ fraction a b }
{
    if b == 0 {
        return Fraction {
            numerator: 0,
            denominator: 1,
        };
    }
    let g = gcd_of(a, b);
    Fraction {
        numerator: a / g,
        denominator: b / g,
    }
}

// The four fields that each line begins with.
fn print_four(out: &mut [u8], at: usize, first: u32, calls: u32, cells: u32, raw: u32) -> usize
    requires { at + 32 ≤ length out.old }
    ensures value { result ≡ at + 32 }
    ensures out_after { out.new ≡ written out.old at (field first ++ (field calls ++ (field cells ++ field raw))) }
{
    let second = printing::print_field(out, at, first);
    let third = printing::print_field(out, second, calls);
    let fourth = printing::print_field(out, third, cells);
    printing::print_field(out, fourth, raw)
}

// Block k's line.
fn print_block(out: &mut [u8], k: u32, b: Block) -> usize
    requires { 41 ≤ length out.old }
    ensures value { (result ≡ length (block_line k b)) × (result ≤ 41) }
    ensures out_after { out.new ≡ written out.old 0 (block_line k b) }
{
    let at = print_four(out, 0, k, b.calls, b.cells, b.raw);
    if b.number == 0 {
        return printing::end_line(out, at);
    }
    let end = printing::print_field(out, at, b.number);
    printing::end_line(out, end)
}

// The last line.
fn print_last(out: &mut [u8], at: usize, p: Page) -> usize
    requires { at + 49 ≤ length out.old }
    ensures value { result ≡ at + length (last_line p) }
    ensures out_after { out.new ≡ written out.old at (last_line p) }
{
    let f = fraction_of(p.raw, p.cells);
    let four = print_four(out, at, 0, p.calls, p.cells, p.raw);
    let next = printing::print_field(out, four, f.numerator);
    let end = printing::print_field(out, next, f.denominator);
    printing::end_line(out, end)
}

// A step on a text that is not empty: the last line follows where the reading ends.
fn step_block(s: &[u8], p: Page, out: &mut [u8]) -> Stepped
    requires { Fits p × (p.lines ≤ 9999) × (90 ≤ length out.old) × (0 < length s.now) }
    ensures steps { Steps s.now p out.old out.new result }
    ensures fits { Fits result.page × (result.taken ≤ length s.now) × (result.count ≤ 90) }
{
    let b = next_block(s, p);
    let taken = b.taken;
    let end = print_block(out, p.lines + 1, b);
    let page = add(p, b);
    if taken == 0 {
        let count = print_last(out, end, page);
        return Stepped { count, taken, page };
    }
    Stepped {
        count: end,
        taken,
        page,
    }
}

// One step of the program, over what it has before it. Prints from the front of `out`.
pub fn step(s: &[u8], p: Page, out: &mut [u8]) -> Stepped
    requires { Fits p × (p.lines ≤ 9999) × (90 ≤ length out.old) }
    ensures steps { Steps s.now p out.old out.new result }
    ensures fits { Fits result.page × (result.taken ≤ length s.now) × (result.count ≤ 90) }
{
    if s.len() == 0 {
        let count = print_last(out, 0, p);
        return Stepped {
            count,
            taken: 0,
            page: p,
        };
    }
    step_block(s, p, out)
}
