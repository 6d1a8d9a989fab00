// What the programs that replay the original's answers have in common: numbers from bytes of an input, and a line's
// numbers, with the hash and the untouched rest of a buffer (oracle/README.md). An input that ends early leaves zeros in
// place of the bytes that it lacks; a read or a write that fails ends the program.
// Functions here may have a `requires`.
#![tactic(auto)]

ghost use Rattle.std.specs.Prelude.{◌≡◌, cond, ℕ, List, ◌+◌, ◌*◌, ◌%◌, ◌<◌, ◌≤◌, min, eqb, length, take, replicate, ◌++◌, codes, decimal, IfOk, IfSome, OnOk, OnErr};
ghost use Rattle.std.specs.Int.{w16, w32, from_le_bytes};
ghost use Rattle.std.specs.Float.{binary32};
ghost use Rattle.std.specs.Float.Ieee.{eq, of_bits, to_bits};
ghost use Rattle.std.specs.Io.KnownBytes.{Appends, Consumes};
ghost use Rattle.replaying.specs.Hash.{hashed, Words};

use std::io;
use std::io::{Read, Write};

// The next N bytes, or none where the input has no more as many.
pub fn read_head<R: Read, const N: usize>(input: &mut R) -> io::Result<Option<[u8; N]>>
    ensures { IfOk result (λ o. IfSome o (λ head. Consumes (R.remaining input.old) (R.remaining input.new) head)) }
{
    let mut head = [0; N];
    if input::read_full(input, &mut head)? < N {
        return Ok(None);
    }
    Ok(Some(head))
}

// A number that stands in the input as N bytes, the low one first.
pub trait OfBytes<const N: usize>: Copy {
    ghost number: { List ℕ → Self };

    fn of_bytes(bytes: [u8; N]) -> Self
        ensures { result ≡ number bytes.entry };
}

impl OfBytes<2> for u16 {
    ghost number = { from_le_bytes w16 };

    fn of_bytes(bytes: [u8; 2]) -> u16
        ensures { result ≡ from_le_bytes w16 bytes }
    {
        u16::from_le_bytes(bytes)
    }
}

impl OfBytes<2> for usize {
    ghost number = { from_le_bytes w16 };

    fn of_bytes(bytes: [u8; 2]) -> usize
        ensures { result ≡ from_le_bytes w16 bytes }
    {
        usize::from(u16::from_le_bytes(bytes))
    }
}

impl OfBytes<4> for u32 {
    ghost number = { from_le_bytes w32 };

    fn of_bytes(bytes: [u8; 4]) -> u32
        ensures { result ≡ from_le_bytes w32 bytes }
    {
        u32::from_le_bytes(bytes)
    }
}

// The float of any bits: `from_bits` takes no NaN's.
impl OfBytes<4> for f32 {
    ghost number = { λ bytes. of_bits binary32 (from_le_bytes w32 bytes) };

    fn of_bytes(bytes: [u8; 4]) -> f32
        ensures { result ≡ of_bits binary32 (from_le_bytes w32 bytes) }
    {
        let bits = u32::from_le_bytes(bytes);
        if 2139095040 < bits % 2147483648 {
            return f32::NAN;
        }
        f32::from_bits(bits)
    }
}

// Reads a number into each place, by a room of its own: to clear it takes as long as it is large.
fn read_in<R: Read, T: OfBytes<N>, const N: usize, const ROOM: usize>(
    input: &mut R,
    numbers: &mut [T],
) -> io::Result<()>
    requires { (0 < N) × (N ≤ 8) × (N * length numbers.old ≤ ROOM) × (ROOM ≤ 32768) }
    ensures { OnErr result (numbers.new ≡ numbers.old) }
{
    let mut bytes = [0u8; ROOM];
    input::read_full(input, &mut bytes[..N * numbers.len()])?;
    let (chunks, _) = bytes.as_chunks::<N>();
    for (number, chunk) in numbers.iter_mut().zip(chunks) {
        *number = T::of_bytes(*chunk);
    }
    Ok(())
}

// Reads a number into each place.
pub fn read_numbers<R: Read, T: OfBytes<N>, const N: usize>(
    input: &mut R,
    numbers: &mut [T],
) -> io::Result<()>
    requires { (0 < N) × (N ≤ 8) × (N * length numbers.old ≤ 32768) }
    ensures { OnErr result (numbers.new ≡ numbers.old) }
{
    if N * numbers.len() <= 1024 {
        return read_in::<R, T, N, 1024>(input, numbers);
    }
    read_in::<R, T, N, 32768>(input, numbers)
}

// A size of two bytes, cut to what the buffer holds.
pub fn size(bytes: [u8; 2], most: usize) -> usize
    ensures { result ≡ min (from_le_bytes w16 bytes) most }
{
    usize::from(u16::from_le_bytes(bytes)).min(most)
}

// A NaN has no bits to be read; no value is one.
pub fn bits_of(value: f32) -> u32
    ensures { result ≡ cond (eq value value) (to_bits binary32 value) 4294967295 }
{
    if value == value {
        return value.to_bits();
    }
    u32::MAX
}

// A hash of words, below a prime, so that nothing wraps.
#[derive(Clone, Copy)]
pub struct Hash {
    pub value: u64,
    ghost below: { value < 4294967291 },
}

impl Hash {
    pub fn new() -> Hash
        ensures { result.value ≡ 0 }
    {
        Hash { value: 0 }
    }

    // With one word more: times 65,599 and plus the word.
    pub fn with(self, word: u32) -> Hash
        ensures { result.value ≡ (self.value * 65599 + word) % 4294967291 }
    {
        Hash {
            value: (self.value * 65599 + u64::from(word)) % 4294967291,
        }
    }

    // With each value's word.
    pub fn with_all<T: Copy + Into<u32>>(self, words: &[T]) -> Hash
        ensures { (ws : List ℕ) × Words T.converts words.now ws × (result.value ≡ hashed self.value ws) }
    {
        let mut hash = self;
        for word in words {
            hash = hash.with((*word).into());
        }
        hash
    }
}

// How many places a call wrote: a refusal writes none.
pub fn written(number: u32, count: usize) -> usize
    ensures { result ≡ cond (eqb number 0) count 0 }
{
    if number == 0 { count } else { 0 }
}

// A float, by its bits.
pub fn print_float<W: Write>(out: &mut W, v: f32) -> io::Result<()>
    ensures { OnOk result (Appends (W.contents out.old) (W.contents out.new)
        (codes " " ++ decimal (cond (eq v v) (to_bits binary32 v) 4294967295))) }
{
    write!(out, " {}", bits_of(v))
}

// The hash of what was written, and 1 where the places behind it are all as before the call, else 0.
pub fn print_buffer<W: Write, T: Copy + Into<u32> + PartialEq>(
    out: &mut W,
    places: &[T],
    count: usize,
    before: T,
) -> io::Result<()> {
    let (front, behind) = places.split_at(count.min(places.len()));
    // All are looked at: without a way out the loop is quicker.
    let mut kept = true;
    for place in behind {
        kept &= *place == before;
    }
    write!(
        out,
        " {} {}",
        Hash::new().with_all(front).value,
        u8::from(kept)
    )
}

// The fields of a palette that was found or read.
pub fn print_answer<W: Write>(
    out: &mut W,
    number: u32,
    n: usize,
    transposed: bool,
    colors: [u16; 8],
) -> io::Result<()> {
    write!(out, " {number} {n} {}", u8::from(transposed))?;
    for color in colors {
        write!(out, " {color}")?;
    }
    Ok(())
}

// A block to be searched: its sides, depth and lambda, the rooms for its map and flags, how many samples and costs were
// read, and whether the costs of the block before serve again.
#[derive(Clone, Copy)]
pub struct BlockHead {
    pub width: usize,
    pub height: usize,
    pub bd: u32,
    pub cells: usize,
    pub flag_room: usize,
    pub map_room: usize,
    pub samples: usize,
    pub costs: usize,
    pub lambda: f32,
    pub again: bool,
    ghost rooms: { (flag_room ≤ 80) × (map_room ≤ 4240) },
    ghost counts: { (samples ≤ 4200) × (costs ≤ 560) },
}

impl BlockHead {
    fn by(head: [u8; 15]) -> BlockHead {
        let [
            width,
            height,
            bd,
            flag_room,
            m0,
            m1,
            s0,
            s1,
            c0,
            c1,
            l0,
            l1,
            l2,
            l3,
            again,
        ] = head;
        BlockHead {
            width: usize::from(width),
            height: usize::from(height),
            bd: u32::from(bd),
            cells: usize::from(width) * usize::from(height),
            flag_room: usize::from(flag_room).min(80),
            map_room: size([m0, m1], 4240),
            samples: size([s0, s1], 4200),
            costs: size([c0, c1], 560),
            lambda: f32::of_bytes([l0, l1, l2, l3]),
            again: again != 0,
        }
    }
}

// What was read of samples and costs. Costs that serve again are those of the block before.
#[derive(Drop)]
pub struct Blocks {
    samples: [f32; 4200],
    costs: [f32; 560],
}

impl Blocks {
    pub fn new() -> Blocks
        ensures { (result.samples ≡ replicate 4200 (of_bits binary32 0)) × (result.costs ≡ replicate 560 (of_bits binary32 0)) }
    {
        Blocks {
            samples: [0.0; 4200],
            costs: [0.0; 560],
        }
    }

    // Reads the next block, or none once the input has no further one. It is 15 bytes: width, height, bd, flag room; then
    // map room, sample count and cost count, each of two bytes, the low one first; lambda's bits, of four; and 1 where the
    // costs of the block before serve again, else 0. Behind them stand the costs (none where they serve again) and the
    // samples, each by its bits, of four bytes, the low one first.
    pub fn next<R: Read>(&mut self, input: &mut R) -> io::Result<Option<BlockHead>>
        ensures { OnErr result (self.new.samples ≡ self.old.samples) }
    {
        let Some(head) = read_head(input)? else {
            return Ok(None);
        };
        let a = BlockHead::by(head);
        if !a.again {
            read_numbers(input, &mut self.costs[..a.costs])?;
        }
        read_numbers(input, &mut self.samples[..a.samples])?;
        Ok(Some(a))
    }

    pub fn samples(&self, head: &BlockHead) -> &[f32]
        ensures { result.now ≡ take head.now.samples self.now.samples }
    {
        &self.samples[..head.samples]
    }

    pub fn costs(&self, head: &BlockHead) -> &[f32]
        ensures { result.now ≡ take head.now.costs self.now.costs }
    {
        &self.costs[..head.costs]
    }
}
