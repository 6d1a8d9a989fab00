// A call list read back. `read` answers for all arguments; the others serve it.
#![tactic(auto)]

ghost use Rattle.std.specs.Prelude.{◌≡◌, ◌*◌, ◌≤◌, max, length};
ghost use Rattle.lists.specs.Written.{front};
ghost use Rattle.accept.specs.Answer.{uncounted};
ghost use Rattle.refusals.specs.Numbers.{number};
ghost use Rattle.reader.specs.Steps.{told, left};
ghost use Rattle.reading.specs.Reading.{read_orient, relists, limits, reading, Reads};
ghost use Rattle.reading.specs.Steps.{Headed, Room, Blank, palette_in, judged, outcome, answer_of};

use accept::Palette;
use read_colors::Held;
use read_map::Plan;
use reader::Reading;
use refusals::Refusal;
use rows::{Nexts, Tables};
use scan::Scan;

// What is known ahead of the map: the block, the whole list and what is left of it, colours and orientation.
#[derive(Drop)]
struct Head<'a> {
    pub width: usize,
    pub height: usize,
    pub bd: u32,
    pub cache: &'a [u16],
    pub words: &'a [u32],
    pub reading: Reading<'a>,
    pub held: Held,
    pub transposed: bool,
}

// The orientation bit, where it is sent; else plain.
fn read_orient(words: &mut Reading, w: usize, h: usize) -> Result<bool, Refusal>
    ensures reads { read_orient w h (left words.old) ≡ told (λ transposed. transposed) result (left words.new) }
    ensures list { words.new.words ≡ words.old.words }
{
    if !counts::orient_sent(w, h) {
        return Ok(false);
    }
    let bit = words.take(1, 1, 2)?;
    Ok(bit == 1)
}

// The refusals 1, 2, 13 and 7.
fn limits(
    width: usize,
    height: usize,
    bd: u32,
    cached: usize,
    cells: usize,
    lines: usize,
) -> Result<(), Refusal>
    ensures { number result ≡ limits width height bd cached cells lines }
{
    if !accept::sides_ok(width, height) {
        return Err(Refusal::Side);
    }
    if !accept::within(8, 12, bd as usize) {
        return Err(Refusal::Depth);
    }
    if 64 < cached {
        return Err(Refusal::Cache);
    }
    if !accept::rooms_ok(width, height, cells, lines) {
        return Err(Refusal::Room);
    }
    Ok(())
}

// Whether the listing accepts the palette, and would write the list.
fn relists(b: &Head, cells: &[u8], lines: &[u8], aside: &mut [u32]) -> bool
    requires { 4234 ≤ length aside.old }
    ensures { result ≡ relists b.now.width b.now.height b.now.bd b.now.cache.now
        (palette_in b.now cells.now lines.now) b.now.words.now }
{
    let listed = listing::list(
        b.width,
        b.height,
        b.bd,
        b.held.colors,
        b.held.count,
        b.transposed,
        cells,
        lines,
        b.cache,
        aside,
    );
    // Stays (1): `Listed` keeps its number, which C is given.
    if listed.number != 0 {
        return false;
    }
    &aside[..listed.count] == b.words
}

// Reads the lines behind the head, into cells and lines; what is read to its end has to be listed again.
// Stays (5): cells, lines and aside are lent apart here and below; no proof is made where one call lends several fields of a struct lent.
fn read_rest(
    b: &Head,
    cells: &mut [u8],
    lines: &mut [u8],
    aside: &mut [u32],
    tables: &Tables,
) -> Result<(), Refusal>
    requires headed { Headed b.now }
    requires blank { Blank b.now cells.old lines.old }
    requires room { 4234 ≤ length aside.old }
    ensures { judged b.now ≡ outcome b.now cells.new lines.new result }
{
    let plan = Plan {
        scan: Scan::new(b.width, b.height, b.transposed),
        n: b.held.count,
        tables,
    };
    let mut reading = b.reading;
    plan.read_lines(&mut reading, cells, lines)?;
    if reading.at < reading.words.len() {
        return Err(Refusal::WordsLeft);
    }
    if !relists(b, cells, lines, aside) {
        return Err(Refusal::NotListed);
    }
    Ok(())
}

// Reads word by word, over what a guess has left in cells and lines.
fn read_words(
    b: &Head,
    cells: &mut [u8],
    lines: &mut [u8],
    aside: &mut [u32],
) -> Result<(), Refusal>
    requires headed { Headed b.now }
    requires room { Room b.now cells.old lines.old aside.old }
    ensures { judged b.now ≡ outcome b.now cells.new lines.new result }
{
    cells.fill(0);
    lines.fill(0);
    read_rest(b, cells, lines, aside, &Tables::new())
}

// What is guessed and listed to the same words is what the list says; only a list that is not is read word by word, for its
// number.
fn read_guessed(
    b: &Head,
    cells: &mut [u8],
    lines: &mut [u8],
    aside: &mut [u32],
    nexts: &Nexts,
) -> Result<(), Refusal>
    requires headed { Headed b.now }
    requires blank { Blank b.now cells.old lines.old }
    requires room { 4234 ≤ length aside.old }
    ensures { judged b.now ≡ outcome b.now cells.new lines.new result }
{
    let s = Scan::new(b.width, b.height, b.transposed);
    guess_map::guess_lines(b.reading.words, b.reading.at, cells, lines, s, nexts);
    let listed = relists(b, cells, lines, aside);
    if !listed {
        return read_words(b, cells, lines, aside);
    }
    Ok(())
}

// Writes what was read, and answers with the palette.
fn deliver(b: &Head, cells: &[u8], lines: &[u8], map: &mut [u8], flags: &mut [u8]) -> Palette
    requires { (length cells.now ≤ length map.old) × (length lines.now ≤ length flags.old) }
    ensures map_after { (map.new ≡ front cells.now map.old) × (flags.new ≡ front lines.now flags.old) }
    ensures value { result ≡ uncounted 0 b.now.held.count b.now.held.colors b.now.transposed }
{
    lists::copy_front(cells, cells.len(), map);
    lists::copy_front(lines, lines.len(), flags);
    Palette {
        n: b.held.count,
        colors: b.held.colors,
        transposed: b.transposed,
        ..accept::blank()
    }
}

// Reads the lines behind the head, with the room lent, and writes them where nothing is wrong.
fn read_by(
    b: &Head,
    cells: &mut [u8],
    lines: &mut [u8],
    map: &mut [u8],
    flags: &mut [u8],
) -> Result<Palette, Refusal>
    requires headed { Headed b.now }
    requires blank { Blank b.now cells.old lines.old }
    requires room { (length cells.old ≤ length map.old) × (length lines.old ≤ length flags.old) }
    ensures { Reads (judged b.now) map.old map.new flags.old flags.new (answer_of result) }
{
    let mut aside = [0u32; 4234];
    read_guessed(b, cells, lines, &mut aside, &Nexts::new())?;
    Ok(deliver(b, cells, lines, map, flags))
}

// Reads the lines behind the head.
fn read_behind(b: &Head, map: &mut [u8], flags: &mut [u8]) -> Result<Palette, Refusal>
    requires headed { Headed b.now }
    requires room { (b.now.width * b.now.height ≤ length map.old) × (max b.now.width b.now.height ≤ length flags.old) }
    ensures { Reads (judged b.now) map.old map.new flags.old flags.new (answer_of result) }
{
    let mut cells = [0u8; 4096];
    let mut lines = [0u8; 64];
    let count = context::lines_of(b.transposed, b.width, b.height);
    read_by(
        b,
        &mut cells[..b.width * b.height],
        &mut lines[..count],
        map,
        flags,
    )
}

// As `read`, with a refusal as `Err`.
fn read_into(
    width: usize,
    height: usize,
    bd: u32,
    cache: &[u16],
    words: &[u32],
    map: &mut [u8],
    flags: &mut [u8],
) -> Result<Palette, Refusal>
    ensures { Reads
        (reading width height bd cache.now (length map.old) (length flags.old) words.now)
        map.old map.new flags.old flags.new (answer_of result) }
{
    limits(width, height, bd, cache.len(), map.len(), flags.len())?;
    let mut reading = Reading { words, at: 0 };
    let held = read_colors::read_colors(&mut reading, bd, cache)?;
    let transposed = read_orient(&mut reading, width, height)?;
    let b = Head {
        width,
        height,
        bd,
        cache,
        words,
        reading,
        held,
        transposed,
    };
    read_behind(&b, map, flags)
}

// Reads a call list back: colours and orientation are returned, map and flags written from the front; or it is refused and
// nothing is written.
// Stays (1, 5): the form of `palette::read`, which hands the answer with its number on to C.
pub fn read(
    width: usize,
    height: usize,
    bd: u32,
    cache: &[u16],
    words: &[u32],
    map: &mut [u8],
    flags: &mut [u8],
) -> Palette
    ensures { Reads
        (reading width height bd cache.now (length map.old) (length flags.old) words.now)
        map.old map.new flags.old flags.new result }
{
    match read_into(width, height, bd, cache, words, map, flags) {
        Ok(palette) => palette,
        Err(refusal) => accept::refuse(refusal),
    }
}
