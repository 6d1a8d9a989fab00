// Prints the costs of all probabilities, then replays the adapted tables of standard input through `make_costs` and prints a
// line of numbers for each. The expected lines are made by the oracle's own working, never by ours (oracle/README.md).
// The costs: p and its cost in sixteenths of a bit, for each p from 1 to 32,768 whose cost is not that of the p before.
// A table is its length, of two bytes, the low one first, and its numbers, likewise.
// Its line: its place, the number, and a hash of the bits of the 301 costs.
#![tactic(auto)]

use replaying::{Hash, bits_of, read_head, read_numbers, size};
use std::io;
use std::io::{Read, Write};

// Prints each p and its cost unless the p before has the same. There is no cost of 241, so the first p is printed.
fn print_steps<W: Write>(out: &mut W) -> io::Result<()> {
    let mut before = 241;
    for p in 1..=32768 {
        let cost = costs::cost_of(p);
        if cost != before {
            writeln!(out, "{p} {cost}")?;
        }
        before = cost;
    }
    Ok(())
}

// Reads the numbers that stand behind the length, and prints the table's line.
fn replay<R: Read, W: Write>(
    input: &mut R,
    out: &mut W,
    place: u64,
    head: [u8; 2],
) -> io::Result<()> {
    let count = size(head, 600);
    let mut numbers = [0u16; 600];
    read_numbers(input, &mut numbers[..count])?;
    let made = palette::make_costs(&numbers[..count]);
    let bits = made.costs.map(bits_of);
    writeln!(
        out,
        "{place} {} {}",
        made.number,
        Hash::new().with_all(&bits).value
    )
}

fn main(rt: HostRuntime) -> io::Result<()> {
    let mut input = rt.stdin();
    let mut out = rt.stdout();
    print_steps(&mut out)?;
    for place in 1..10000 {
        let Some(head) = read_head(&mut input)? else {
            break;
        };
        replay(&mut input, &mut out, place, head)?;
    }
    Ok(())
}
