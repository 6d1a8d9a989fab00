// Runs document 01's worked blocks that are searched, and three blocks on which a reading of it shows
// (docs/DECISIONS.md): ties between cuts are ties of f64, the sizes stop at a bound not below the best, and an error is
// narrowed by its bits. Each
// prints a line; the expected lines are typed from the document and the readings, never from our answers.
// All blocks have bd 8 and costs 0; lambda is 1 where none is named. Functions here may have a `requires`.
#![tactic(auto)]

ghost use Rattle.std.specs.Prelude.{◌<◌, ◌≤◌, ◌*◌, ◌≡◌, length};

use std::io;
use std::io::Write;

// The levels from 0 on, again and again.
fn cycle(levels: usize) -> [f32; 512]
    requires { (0 < levels) × (levels ≤ 256) }
{
    let mut block = [0.0; 512];
    for (i, sample) in block.iter_mut().enumerate() {
        *sample = f32::from((i % levels) as u8);
    }
    block
}

// Eight of one and eight of the other.
fn halves(a: f32, b: f32) -> [f32; 16] {
    let mut block = [a; 16];
    block[8..].fill(b);
    block
}

fn number(samples: &[f32], width: usize, height: usize) -> u32 {
    let costs = [0.0; 301];
    let mut map = [0u8; 512];
    let mut flags = [0u8; 64];
    palette::search(samples, width, height, 8, 1.0, &costs, &mut map, &mut flags).number
}

fn print_halves<W: Write>(out: &mut W, name: &str, a: f32, b: f32) -> io::Result<()> {
    writeln!(out, "{name}{}", number(&halves(a, b), 16, 1))
}

fn print_cycle<W: Write>(out: &mut W, name: &str, levels: usize, side: usize) -> io::Result<()>
    requires { (0 < levels) × (levels ≤ 256) × (side * side ≤ 512) }
{
    let block = cycle(levels);
    writeln!(out, "{name}{}", number(&block[..side * side], side, side))
}

// The call behind the literals of two colours: the size, three literals, and then this one. 0 where nothing is listed.
fn call_behind_literals(samples: &[f32], width: usize) -> u32
    requires { width ≤ 64 }
{
    let mut map = [0u8; 512];
    let mut flags = [0u8; 64];
    let mut words = [0u32; 600];
    let found = palette::search(samples, width, 8, 8, 1.0, &[0.0; 301], &mut map, &mut flags);
    let lines = if found.transposed { width } else { 8 };
    palette::list(
        width,
        8,
        8,
        found.colors,
        found.n,
        found.transposed,
        &map[..width * 8],
        &flags[..lines],
        &[],
        &mut words,
    );
    words[4]
}

// A bypass call of width 1 is the orientation bit; a row call under context 3 begins the first line.
fn print_high_8<W: Write>(out: &mut W, name: &str, width: usize) -> io::Result<()>
    requires { width ≤ 64 }
{
    let block = cycle(2);
    let told = match call_behind_literals(&block[..width * 8], width) / 65536 {
        257 => "an orientation bit",
        1027 => "no orientation bit",
        _ => "no list",
    };
    writeln!(out, "{name}{told}")
}

// What the search of a block of 16 by 1 gives.
#[derive(Drop)]
struct Row {
    n: usize,
    colors: [u16; 8],
    transposed: bool,
    flag: u8,
    estimate: f32,
}

// A flag that is not written stays 9.
fn searched(block: &[f32; 16], lambda: f32) -> Row {
    let costs = [0.0; 301];
    let mut map = [0u8; 16];
    let mut flags = [9u8; 16];
    let found = palette::search(block, 16, 1, 8, lambda, &costs, &mut map, &mut flags);
    let colors = found.colors;
    Row {
        n: found.n,
        colors,
        transposed: found.transposed,
        flag: flags[0],
        estimate: palette::estimate(found),
    }
}

// The whole number below 1,000 that a float is, or 1,000.
fn whole(value: f32) -> u16 {
    (0..1000).find(|k| f32::from(*k) == value).unwrap_or(1000)
}

fn print_estimate<W: Write>(out: &mut W, estimate: f32) -> io::Result<()> {
    writeln!(out, ", estimate {}", whole(estimate))
}

fn print_colors<W: Write>(out: &mut W, row: &Row) -> io::Result<()> {
    for color in &row.colors[..row.n.min(8)] {
        write!(out, " {color}")?;
    }
    Ok(())
}

fn print_tens<W: Write>(out: &mut W) -> io::Result<()> {
    let row = searched(&halves(10.0, 20.0), 0.0);
    let orientation = if row.transposed {
        "transposed"
    } else {
        "plain"
    };
    write!(out, "eight 10s, eight 20s, lambda 0: colours")?;
    print_colors(out, &row)?;
    write!(out, ", {orientation}, flag {}", row.flag)?;
    print_estimate(out, row.estimate)
}

fn print_ties<W: Write>(out: &mut W) -> io::Result<()> {
    let mut block = [2.0; 16];
    block[0] = 1.0;
    block[15] = 3.0;
    write!(out, "1, fourteen 2s, 3: colours")?;
    print_colors(out, &searched(&block, 1.0))?;
    writeln!(out)
}

fn print_stop<W: Write>(out: &mut W) -> io::Result<()> {
    let mut block = [11.5; 16];
    block[..3].fill(10.25);
    block[3..9].fill(13.5);
    let row = searched(&block, 0.375);
    write!(
        out,
        "three 10.25s, six 13.5s, seven 11.5s, lambda 0.375: {} colours",
        row.n
    )?;
    print_estimate(out, row.estimate)
}

// The smallest block on which another size won where the float unit takes subnormal numbers for 0.
fn print_narrowed<W: Write>(out: &mut W) -> io::Result<()> {
    let mut block = [16.0; 16];
    block[0] = 18.5;
    block[1] = 17.75;
    block[6] = 17.75;
    block[13] = 17.75;
    let row = searched(&block, 0.0);
    write!(out, "18.5, three 17.75s, twelve 16s, lambda 0: colours")?;
    print_colors(out, &row)?;
    print_estimate(out, row.estimate)
}

fn main(rt: HostRuntime) -> io::Result<()> {
    let mut out = rt.stdout();
    print_halves(&mut out, "10.0 and 10.4 only: ", 10.0, 10.4)?;
    print_cycle(&mut out, "32 levels: ", 32, 16)?;
    print_cycle(&mut out, "33 levels: ", 33, 16)?;
    print_cycle(&mut out, "15 by 15: ", 2, 15)?;
    print_halves(&mut out, "16 by 1: ", 10.0, 20.0)?;
    print_high_8(&mut out, "64 by 8: ", 64)?;
    print_high_8(&mut out, "63 by 8: ", 63)?;
    print_tens(&mut out)?;
    print_ties(&mut out)?;
    print_stop(&mut out)?;
    print_narrowed(&mut out)
}
