// Reads a palette's text at a place of a text.
// Open to the crates above only: functions may require a header without faults, or room.
#![tactic(auto)]

ghost use Rattle.std.specs.Prelude.{◌≡◌, ◌+◌, ◌*◌, ◌<◌, ◌≤◌, replicate, IfOk, OnErr};
ghost use Rattle.lists.specs.Written.{written};
ghost use Rattle.fields.specs.Fields.{cut};
ghost use Rattle.refusals.specs.Numbers.{number};
ghost use Rattle.text.specs.Text.{header_at, header_fault, Small, lines_in, places_of, is_body, text_number, cache_at, palette_at};

use refusals::Refusal;

// The header's fields.
// Stays (5): that it is `Small` is no ghost field, since `header_at` speaks of headers that are refused too.
#[derive(Clone, Copy)]
pub struct Header {
    pub width: usize,
    pub height: usize,
    pub n: usize,
    pub bd: u32,
    pub transposed: bool,
    pub cached: usize,
}

// The numbers of the lines after the header, from the front of each room.
// Stays (6): no heap, so that each room is as large as a header allows, and the header has the lengths.
#[derive(Drop)]
pub struct Numbers {
    pub colors: [u16; 8],
    pub cache: [u16; 64],
    pub flags: [u8; 64],
    pub map: [u8; 4096],
}

impl Numbers {
    pub fn new() -> Numbers
        ensures { (result.colors ≡ replicate 8 0) × (result.cache ≡ replicate 64 0) × (result.flags ≡ replicate 64 0)
            × (result.map ≡ replicate 4096 0) }
    {
        Numbers {
            colors: [0; 8],
            cache: [0; 64],
            flags: [0; 64],
            map: [0; 4096],
        }
    }
}

// Where the lines after the header stand, and where the palette ends.
#[derive(Drop)]
pub struct Places {
    pub colors: usize,
    pub cache: usize,
    pub flags: usize,
    pub rows: usize,
    pub end: usize,
}

fn header_fault(h: Header) -> Result<(), Refusal>
    ensures { number result ≡ header_fault h }
{
    if !accept::sides_ok(h.width, h.height) {
        return Err(Refusal::Side);
    }
    if !accept::within(8, 12, h.bd as usize) {
        return Err(Refusal::Depth);
    }
    if !accept::within(2, 8, h.n) {
        return Err(Refusal::Colors);
    }
    if !accept::orient_ok(h.width, h.height, h.transposed) {
        return Err(Refusal::Orientation);
    }
    if h.cached > 64 {
        return Err(Refusal::Cache);
    }
    Ok(())
}

// The header's fields as they stand, tested by `text_fault`.
fn read_header(s: &[u8], at: usize) -> Header
    requires { at < 1000000000 }
    ensures { result ≡ header_at s.now at }
{
    Header {
        width: fields::number_at(s, at) as usize,
        height: fields::number_at(s, at + 8) as usize,
        n: fields::number_at(s, at + 16) as usize,
        bd: fields::number_at(s, at + 24),
        transposed: fields::number_at(s, at + 32) == 1,
        cached: fields::number_at(s, at + 40) as usize,
    }
}

// One flag for each line.
pub fn lines_in(h: Header) -> usize
    requires { Small h }
    ensures { (result ≡ lines_in h) × (result ≤ 64) }
{
    if h.transposed { h.width } else { h.height }
}

pub fn cells_in(h: Header) -> usize
    requires { Small h }
    ensures { (result ≡ h.height * h.width) × (result ≤ 4096) }
{
    h.height * h.width
}

pub fn places_of(h: Header, at: usize) -> Places
    requires { Small h × (at < 1000000000) }
    ensures value { result ≡ places_of h at }
    ensures colors_bound { (result.colors ≤ at + 33972) × (result.cache ≤ at + 33972) × (result.flags ≤ at + 33972) × (result.rows ≤ at + 33972)
        × (result.end ≤ at + 33972) }
{
    let colors = at + 49;
    let cache = colors + (8 * h.n + 1);
    let flags = cache + (8 * h.cached + 1);
    let rows = flags + (8 * lines_in(h) + 1);
    let end = rows + h.height * (8 * h.width + 1);
    Places {
        colors,
        cache,
        flags,
        rows,
        end,
    }
}

// Whether the lines after the header are in form.
fn is_body(s: &[u8], at: usize, h: Header) -> bool
    requires { Small h × (at < 1000000000) }
    ensures { result ≡ is_body s.now at h }
{
    let p = places_of(h, at);
    fields::is_line(99999999, s, p.colors, h.n)
        & fields::is_line(65535, s, p.cache, h.cached)
        & fields::is_line(99999999, s, p.flags, lines_in(h))
        & fields::are_rows(99999999, s, p.rows, h.width, h.height)
}

// Whether the text at a place, whose header is h, is in form.
fn text_fault(s: &[u8], at: usize, h: Header) -> Result<(), Refusal>
    requires { (h ≡ header_at s.now at) × (at < 1000000000) }
    ensures { number result ≡ text_number s.now at }
{
    if !(fields::is_line(99999999, s, at, 6) & (fields::number_at(s, at + 32) <= 1)) {
        return Err(Refusal::Text);
    }
    header_fault(h)?;
    if !is_body(s, at, h) {
        return Err(Refusal::Text);
    }
    Ok(())
}

// Numbers too large for their room are cut to its limit, which changes no answer.
fn read_body(s: &[u8], at: usize, h: Header, numbers: &mut Numbers)
    requires { Small h × (at < 1000000000) }
    ensures colors { numbers.new.colors ≡ written numbers.old.colors 0 (cut 65535 (palette_at s.now at h).colors) }
    ensures cache { numbers.new.cache ≡ written numbers.old.cache 0 (cut 65535 (cache_at s.now at h)) }
    ensures flags { numbers.new.flags ≡ written numbers.old.flags 0 (cut 255 (palette_at s.now at h).flags) }
    ensures map { numbers.new.map ≡ written numbers.old.map 0 (cut 255 (palette_at s.now at h).map) }
{
    let p = places_of(h, at);
    fields::read_line(s, p.colors, h.n, &mut numbers.colors, 0);
    fields::read_line(s, p.cache, h.cached, &mut numbers.cache, 0);
    fields::read_line(s, p.flags, lines_in(h), &mut numbers.flags, 0);
    fields::read_rows(s, p.rows, h.width, h.height, &mut numbers.map);
}

// The palette at a place: its header and, where the text is in form, its numbers.
pub fn read_palette(s: &[u8], at: usize, numbers: &mut Numbers) -> Result<Header, Refusal>
    requires { at < 1000000000 }
    ensures value { number result ≡ text_number s.now at }
    ensures header { IfOk result (λ h. (h ≡ header_at s.now at) × Small h) }
    ensures colors { IfOk result (λ h. numbers.new.colors ≡ written numbers.old.colors 0 (cut 65535 (palette_at s.now at h).colors)) }
    ensures cache { IfOk result (λ h. numbers.new.cache ≡ written numbers.old.cache 0 (cut 65535 (cache_at s.now at h))) }
    ensures flags { IfOk result (λ h. numbers.new.flags ≡ written numbers.old.flags 0 (cut 255 (palette_at s.now at h).flags)) }
    ensures map { IfOk result (λ h. numbers.new.map ≡ written numbers.old.map 0 (cut 255 (palette_at s.now at h).map)) }
    ensures refused { OnErr result (numbers.new ≡ numbers.old) }
{
    let h = read_header(s, at);
    text_fault(s, at, h)?;
    read_body(s, at, h, numbers);
    Ok(h)
}
