// Replays the strips of standard input through `search_strip`, and prints a line of numbers for each and for each of its
// blocks. The expected lines are made from the original's answers, never from ours (oracle/README.md).
// A strip is 16 bytes: the count of its sides, of two bytes, the low one first; bd, of one; map room, flag room, sample count
// and cost count, of two bytes each; lambda's bits, of four; and 1 where the costs of the strip before serve again, else 0.
// Behind them stand the sides, of two bytes each, the costs (none where they serve again) and the samples, each by its bits,
// of four bytes.
// Its line: its place, the number, a hash of all 64 answers, a hash of the whole buffer for maps and one of that for flags.
// A block's line, where the strip is not refused: the number, n, the orientation, the eight colours, the estimate, head and map
// bits, each by its bits, a hash of its part of the map and one of its part of the flags, written or not.
#![tactic(auto)]

ghost use Rattle.std.specs.Prelude.{◌≡◌, ◌≤◌, OnErr};

use accept::Palette;
use replaying::{Hash, OfBytes, bits_of, print_answer, print_float, read_head, read_numbers, size};
use std::io;
use std::io::{Read, Write};

// A strip to be searched: the rooms that are lent, and how much was read.
#[derive(Clone, Copy)]
pub struct StripHead {
    pub sides: usize,
    pub bd: u32,
    pub map_room: usize,
    pub flag_room: usize,
    pub samples: usize,
    pub costs: usize,
    pub lambda: f32,
    pub again: bool,
    ghost rooms: { (map_room ≤ 8192) × (flag_room ≤ 2048) },
    ghost counts: { (sides ≤ 300) × (samples ≤ 8192) × (costs ≤ 560) },
}

impl StripHead {
    fn by(head: [u8; 16]) -> StripHead {
        let [
            s0,
            s1,
            bd,
            m0,
            m1,
            f0,
            f1,
            n0,
            n1,
            c0,
            c1,
            l0,
            l1,
            l2,
            l3,
            again,
        ] = head;
        StripHead {
            sides: size([s0, s1], 300),
            bd: u32::from(bd),
            map_room: size([m0, m1], 8192),
            flag_room: size([f0, f1], 2048),
            samples: size([n0, n1], 8192),
            costs: size([c0, c1], 560),
            lambda: f32::of_bytes([l0, l1, l2, l3]),
            again: again != 0,
        }
    }
}

// What was read of sides, samples and costs. Costs that serve again are those of the strip before.
#[derive(Drop)]
struct Strips {
    sides: [usize; 300],
    samples: [f32; 8192],
    costs: [f32; 560],
}

impl Strips {
    fn new() -> Strips {
        Strips {
            sides: [0; 300],
            samples: [0.0; 8192],
            costs: [0.0; 560],
        }
    }

    // Reads the next strip, or none once the input has no further one.
    fn next<R: Read>(&mut self, input: &mut R) -> io::Result<Option<StripHead>>
        ensures { OnErr result (self.new.samples ≡ self.old.samples) }
    {
        let Some(head) = read_head(input)? else {
            return Ok(None);
        };
        let a = StripHead::by(head);
        read_numbers(input, &mut self.sides[..a.sides])?;
        if !a.again {
            read_numbers(input, &mut self.costs[..a.costs])?;
        }
        read_numbers(input, &mut self.samples[..a.samples])?;
        Ok(Some(a))
    }

    fn sides(&self, a: &StripHead) -> &[usize] {
        &self.sides[..a.sides]
    }

    fn samples(&self, a: &StripHead) -> &[f32] {
        &self.samples[..a.samples]
    }

    fn costs(&self, a: &StripHead) -> &[f32] {
        &self.costs[..a.costs]
    }
}

// Number, n, colours, orientation, head and map bits.
fn hash_answer(before: Hash, p: &Palette) -> Hash {
    let n = p.n.min(4294967295) as u32;
    let colored = before.with(p.number).with(n).with_all(&p.colors);
    let so_far = colored.with(u32::from(p.transposed)).with(bits_of(p.head));
    so_far.with(bits_of(p.map_bits))
}

fn hash_answers(answers: &[Palette]) -> u64 {
    let mut hash = Hash::new();
    for answer in answers {
        hash = hash_answer(hash, answer);
    }
    hash.value
}

fn hash_bytes(bytes: &[u8]) -> u64 {
    Hash::new().with_all(bytes).value
}

fn print_block<W: Write>(out: &mut W, p: Palette, map: &[u8], flags: &[u8]) -> io::Result<()> {
    print_answer(out, p.number, p.n, p.transposed, p.colors)?;
    print_float(out, palette::estimate(p))?;
    print_float(out, p.head)?;
    print_float(out, p.map_bits)?;
    writeln!(out, " {} {}", hash_bytes(map), hash_bytes(flags))
}

fn area(width: usize, height: usize) -> usize
    requires { (width ≤ 64) × (height ≤ 64) }
    ensures { result ≤ 4096 }
{
    width * height
}

// A block's line for each two sides, with the parts of the buffers behind those of the blocks before. Sides that are greater
// than 64 were refused.
fn print_blocks<W: Write>(
    out: &mut W,
    answers: &[Palette],
    sides: &[usize],
    map: &[u8],
    flags: &[u8],
) -> io::Result<()> {
    let (pairs, _) = sides.as_chunks::<2>();
    let mut map_left = map;
    let mut flags_left = flags;
    for (answer, pair) in answers.iter().zip(pairs) {
        let width = pair[0].min(64);
        let height = pair[1].min(64);
        let (cells, map_behind) = map_left.split_at(area(width, height).min(map_left.len()));
        let (lines, flags_behind) = flags_left.split_at(width.max(height).min(flags_left.len()));
        print_block(out, *answer, cells, lines)?;
        map_left = map_behind;
        flags_left = flags_behind;
    }
    Ok(())
}

// Lends the front of fresh buffers, and prints the answers and what the buffers then hold.
fn replay<W: Write>(out: &mut W, place: u64, a: StripHead, read: &Strips) -> io::Result<()> {
    let mut map = [238u8; 8192];
    let mut flags = [238u8; 2048];
    let strip = palette::search_strip(
        read.sides(&a),
        read.samples(&a),
        a.bd,
        a.lambda,
        read.costs(&a),
        &mut map[..a.map_room],
        &mut flags[..a.flag_room],
    );
    write!(
        out,
        "{place} {} {}",
        strip.number,
        hash_answers(&strip.answers)
    )?;
    writeln!(out, " {} {}", hash_bytes(&map), hash_bytes(&flags))?;
    if strip.number == 0 {
        print_blocks(out, &strip.answers, read.sides(&a), &map, &flags)?;
    }
    Ok(())
}

fn main(rt: HostRuntime) -> io::Result<()> {
    let mut input = rt.stdin();
    let mut out = rt.stdout();
    let mut strips = Strips::new();
    for place in 1..10000 {
        let Some(a) = strips.next(&mut input)? else {
            break;
        };
        replay(&mut out, place, a, &strips)?;
    }
    Ok(())
}
