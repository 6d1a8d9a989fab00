// Prints the contexts of all left, top, diagonal and n, then replays the cells of standard input through `color_ctx` and
// prints a line of numbers for each. The expected lines are made by the original and, for the ranks, by the oracle's own
// working, never by ours (oracle/README.md).
// All: for each n from 0 to 10 and each neighbour from 0 to 8 a line with n, the neighbour and a hash of the answers on the
// top row, in the left column, and inside with it on the left and each top and diagonal from 0 to 8.
// A cell is ten bytes, then its map: the map's length, stride, y, x and n, each of two bytes, the low one first.
// Its line: its place, the number, the context, the eight places of the order and those of the ranks.
#![tactic(auto)]

use replaying::{Hash, read_head, size};
use std::io;
use std::io::{Read, Write};

// The hash of an answer behind that of those before it. No context is as large as 256, and none is the last of all numbers.
fn hash_answer(h: Hash, map: &[u8], stride: usize, y: usize, x: usize, n: usize) -> Hash {
    let found = palette::color_ctx(map, stride, y, x, n);
    let front = h.with(found.number).with(found.ctx.min(256) as u32);
    front.with_all(&found.order).with_all(&found.ranks)
}

// The answers with a neighbour on the left, each behind the one before.
fn hash_inside(h: Hash, left: u8, n: usize) -> Hash {
    let mut after = h;
    for top in 0..9 {
        for diagonal in 0..9 {
            after = hash_answer(after, &[diagonal, top, left], 2, 1, 1, n);
        }
    }
    after
}

fn print_neighbour<W: Write>(out: &mut W, n: usize, neighbour: u8) -> io::Result<()> {
    let top_row = hash_answer(Hash::new(), &[neighbour], 2, 0, 1, n);
    let edges = hash_answer(top_row, &[neighbour], 1, 1, 0, n);
    writeln!(
        out,
        "{n} {neighbour} {}",
        hash_inside(edges, neighbour, n).value
    )
}

fn print_all<W: Write>(out: &mut W) -> io::Result<()> {
    for n in 0..11 {
        for neighbour in 0..9 {
            print_neighbour(out, n, neighbour)?;
        }
    }
    Ok(())
}

// A number of two bytes, the low one first; the last 256 of them stand for the last of all numbers.
fn far(bytes: [u8; 2]) -> usize {
    let v = u16::from_le_bytes(bytes);
    if v < 65280 {
        return usize::from(v);
    }
    usize::MAX - usize::from(u16::MAX - v)
}

// Reads the map that stands behind the ten bytes, and prints the cell's line.
fn replay<R: Read, W: Write>(
    input: &mut R,
    out: &mut W,
    place: u64,
    head: [u8; 10],
) -> io::Result<()> {
    let [c0, c1, s0, s1, y0, y1, x0, x1, n0, n1] = head;
    let count = size([c0, c1], 600);
    let mut cells = [0u8; 600];
    input::read_full(input, &mut cells[..count])?;
    let map = &cells[..count];
    let found = palette::color_ctx(
        map,
        far([s0, s1]),
        far([y0, y1]),
        far([x0, x1]),
        far([n0, n1]),
    );
    write!(out, "{place} {} {}", found.number, found.ctx)?;
    for index in found.order {
        write!(out, " {index}")?;
    }
    for rank in found.ranks {
        write!(out, " {rank}")?;
    }
    out.write_all(b"\n")
}

fn main(rt: HostRuntime) -> io::Result<()> {
    let mut input = rt.stdin();
    let mut out = rt.stdout();
    print_all(&mut out)?;
    for place in 1..10000 {
        let Some(head) = read_head(&mut input)? else {
            break;
        };
        replay(&mut input, &mut out, place, head)?;
    }
    Ok(())
}
