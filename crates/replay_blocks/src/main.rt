// Replays the blocks of standard input through `search`, and prints a line of numbers for each. The expected lines
// are made from the original's answers, never from ours (oracle/README.md).
// A block's line: its place, the number, n, the orientation, the eight colours, the estimate, head and map bits, each by its
// bits, a hash of the map's cells, whether the places behind them kept what they held, a hash of the flags, and whether the
// places behind them kept what they held.
#![tactic(auto)]

use replaying::{BlockHead, Blocks, print_answer, print_buffer, print_float, written};
use std::io;
use std::io::Write;

// Lends the front of fresh buffers, and prints the answer and what the buffers then hold.
fn replay<W: Write>(
    out: &mut W,
    place: u64,
    a: BlockHead,
    samples: &[f32],
    costs: &[f32],
) -> io::Result<()> {
    let mut map = [238u8; 4240];
    let mut flags = [238u8; 80];
    let found = palette::search(
        samples,
        a.width,
        a.height,
        a.bd,
        a.lambda,
        costs,
        &mut map[..a.map_room],
        &mut flags[..a.flag_room],
    );
    let lines = context::lines_of(found.transposed, a.width, a.height);
    write!(out, "{place}")?;
    print_answer(out, found.number, found.n, found.transposed, found.colors)?;
    print_float(out, palette::estimate(found))?;
    print_float(out, found.head)?;
    print_float(out, found.map_bits)?;
    print_buffer(out, &map, written(found.number, a.cells), 238)?;
    print_buffer(out, &flags, written(found.number, lines), 238)?;
    out.write_all(b"\n")
}

fn main(rt: HostRuntime) -> io::Result<()> {
    let mut input = rt.stdin();
    let mut out = rt.stdout();
    let mut blocks = Blocks::new();
    for place in 1..10000 {
        let Some(a) = blocks.next(&mut input)? else {
            break;
        };
        replay(&mut out, place, a, blocks.samples(&a), blocks.costs(&a))?;
    }
    Ok(())
}
