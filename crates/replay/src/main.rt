// Replays the palettes of standard input through `list` and `pred`, and prints a line of numbers for each. The expected lines
// are made from the original's answers, never from ours (oracle/README.md).
// A palette is 29 bytes: width, height, bd, n, orientation, cache length, number of flags; then map length, word room, value
// room and eight colours, each of two bytes, the low one first. Behind them stand the cache, of two bytes each, the flags and
// the map. Its line: its place, `list`'s number, count and raw width, a hash of the words, whether the places behind them kept
// what they held; `pred`'s number, a hash of the bits of its values, and whether the places behind them kept what they held.
#![tactic(auto)]

ghost use Rattle.std.specs.Prelude.{◌<◌, ◌≤◌};

use replaying::{bits_of, print_buffer, read_head, read_numbers, size};
use std::io;
use std::io::{Read, Write};

#[derive(Clone, Copy)]
struct Asked {
    width: usize,
    height: usize,
    bd: u32,
    n: usize,
    transposed: bool,
    cached: usize,
    lines: usize,
    cells: usize,
    word_room: usize,
    value_room: usize,
    colors: [u16; 8],
    ghost fronts: { (cached < 256) × (lines < 256) × (cells ≤ 4240) },
    ghost rooms: { (word_room ≤ 4240) × (value_room ≤ 4240) },
}

impl Asked {
    fn by(head: [u8; 29]) -> Asked {
        let [
            width,
            height,
            bd,
            n,
            transposed,
            cached,
            lines,
            c0,
            c1,
            w0,
            w1,
            v0,
            v1,
            ..
        ] = head;
        let mut colors = [0; 8];
        let (pairs, _) = head[13..].as_chunks();
        for (color, pair) in colors.iter_mut().zip(pairs) {
            *color = u16::from_le_bytes(*pair);
        }
        Asked {
            width: usize::from(width),
            height: usize::from(height),
            bd: u32::from(bd),
            n: usize::from(n),
            transposed: transposed != 0,
            cached: usize::from(cached),
            lines: usize::from(lines),
            cells: size([c0, c1], 4240),
            word_room: size([w0, w1], 4240),
            value_room: size([v0, v1], 4240),
            colors,
        }
    }
}

// Before the call the words hold no call word.
fn replay_list<W: Write>(
    out: &mut W,
    a: Asked,
    cache: &[u16],
    flags: &[u8],
    map: &[u8],
) -> io::Result<()> {
    let mut words = [4000000000; 4240];
    let listed = palette::list(
        a.width,
        a.height,
        a.bd,
        a.colors,
        a.n,
        a.transposed,
        map,
        flags,
        cache,
        &mut words[..a.word_room],
    );
    write!(
        out,
        " {} {} {}",
        listed.number, listed.count, listed.raw_width
    )?;
    print_buffer(out, &words, listed.count, 4000000000)
}

// Before the call the values hold no colour.
fn replay_pred<W: Write>(out: &mut W, a: Asked, flags: &[u8], map: &[u8]) -> io::Result<()> {
    let mut values = [0.5; 4240];
    let number = palette::pred(
        a.width,
        a.height,
        a.bd,
        a.colors,
        a.n,
        a.transposed,
        map,
        flags,
        &mut values[..a.value_room],
    );
    write!(out, " {number}")?;
    // `pred` accepts only a map of as many cells as there are values.
    let count = replaying::written(number, a.cells);
    let mut bits = [0; 4240];
    for (bit, value) in bits.iter_mut().zip(&values) {
        *bit = bits_of(*value);
    }
    print_buffer(out, &bits, count, bits_of(0.5))
}

// Reads what stands behind the 29 bytes, and prints the palette's line.
fn replay<R: Read, W: Write>(input: &mut R, out: &mut W, place: u64, a: Asked) -> io::Result<()> {
    let mut cache = [0u16; 256];
    let mut flags = [0u8; 256];
    let mut map = [0u8; 4240];
    read_numbers(input, &mut cache[..a.cached])?;
    input::read_full(input, &mut flags[..a.lines])?;
    input::read_full(input, &mut map[..a.cells])?;
    write!(out, "{place}")?;
    replay_list(
        out,
        a,
        &cache[..a.cached],
        &flags[..a.lines],
        &map[..a.cells],
    )?;
    replay_pred(out, a, &flags[..a.lines], &map[..a.cells])?;
    out.write_all(b"\n")
}

fn main(rt: HostRuntime) -> io::Result<()> {
    let mut input = rt.stdin();
    let mut out = rt.stdout();
    for place in 1..10000 {
        let Some(head) = read_head(&mut input)? else {
            break;
        };
        replay(&mut input, &mut out, place, Asked::by(head))?;
    }
    Ok(())
}
