// Replays the lists of standard input through `read`, and prints a line of numbers for each. The expected lines
// are made by the oracle's own reader, never by ours (oracle/README.md).
// A list is 9 bytes: width, height, bd, cache length, flag room; then map room and word count, each of two bytes,
// the low one first. Behind them stand the cache, of two bytes each, and the words, of four, the low one first.
// Its line: its place, the number, n, the orientation, the eight colours, head and map bits by their bits, a hash of the map's
// cells, whether the places behind them kept what they held, a hash of the flags, and whether the places behind them kept what
// they held.
#![tactic(auto)]

ghost use Rattle.std.specs.Prelude.{◌<◌, ◌≤◌};

use replaying::{print_answer, print_buffer, print_float, read_head, read_numbers, size, written};
use std::io;
use std::io::{Read, Write};

#[derive(Clone, Copy)]
struct Asked {
    width: usize,
    height: usize,
    bd: u32,
    cells: usize,
    cached: usize,
    flag_room: usize,
    map_room: usize,
    count: usize,
    ghost fronts: { (cached < 256) × (count ≤ 4240) },
    ghost rooms: { (flag_room ≤ 80) × (map_room ≤ 4240) },
}

impl Asked {
    fn by(head: [u8; 9]) -> Asked {
        let [width, height, bd, cached, flag_room, m0, m1, c0, c1] = head;
        Asked {
            width: usize::from(width),
            height: usize::from(height),
            bd: u32::from(bd),
            cells: usize::from(width) * usize::from(height),
            cached: usize::from(cached),
            flag_room: usize::from(flag_room).min(80),
            map_room: size([m0, m1], 4240),
            count: size([c0, c1], 4240),
        }
    }
}

// Lends the front of fresh buffers, and prints the answer and what the buffers then hold.
fn replay_read<W: Write>(out: &mut W, a: Asked, cache: &[u16], words: &[u32]) -> io::Result<()> {
    let mut map = [238u8; 4240];
    let mut flags = [238u8; 80];
    let read = palette::read(
        a.width,
        a.height,
        a.bd,
        cache,
        words,
        &mut map[..a.map_room],
        &mut flags[..a.flag_room],
    );
    let lines = context::lines_of(read.transposed, a.width, a.height);
    print_answer(out, read.number, read.n, read.transposed, read.colors)?;
    print_float(out, read.head)?;
    print_float(out, read.map_bits)?;
    print_buffer(out, &map, written(read.number, a.cells), 238)?;
    print_buffer(out, &flags, written(read.number, lines), 238)
}

// Reads what stands behind the 9 bytes, and prints the list's line.
fn replay<R: Read, W: Write>(input: &mut R, out: &mut W, place: u64, a: Asked) -> io::Result<()> {
    let mut cache = [0u16; 256];
    let mut words = [0u32; 4240];
    read_numbers(input, &mut cache[..a.cached])?;
    read_numbers(input, &mut words[..a.count])?;
    write!(out, "{place}")?;
    replay_read(out, a, &cache[..a.cached], &words[..a.count])?;
    out.write_all(b"\n")
}

fn main(rt: HostRuntime) -> io::Result<()> {
    let mut input = rt.stdin();
    let mut out = rt.stdout();
    for place in 1..10000 {
        let Some(head) = read_head(&mut input)? else {
            break;
        };
        replay(&mut input, &mut out, place, Asked::by(head))?;
    }
    Ok(())
}
