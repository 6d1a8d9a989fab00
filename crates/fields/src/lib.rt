// Reads the text form: fields of 8 columns, lines of fields, rows of lines.
// Open to the crates above only: functions may require that a place or a room is large enough.
#![tactic(auto)]

ghost use Rattle.std.specs.Prelude.{◌≡◌, ℕ, ◌+◌, ◌*◌, ◌-◌, ◌<◌, ◌≤◌, min, map, length, get_or};
ghost use Rattle.lists.specs.Written.{written};
ghost use Rattle.fields.specs.Fields.{is_digit, column, field_at, number_of, number_up_to, is_line, line_numbers, are_rows, row_numbers, cut};

// A field as far as it was read: spaces only, a number, or not in form.
#[derive(Clone, Copy)]
pub enum Field {
    Blank,
    Number(u32),
    Bad,
}

// What a buffer stores of a field's number: the number, or the most that it has room for.
pub trait Stored: Copy {
    ghost stored: { ℕ → Self };

    fn stored(v: u32) -> Self
        ensures { result ≡ stored v };
}

impl Stored for u8 {
    ghost stored = { λ v. min v 255 };

    fn stored(v: u32) -> u8 {
        v.min(255) as u8
    }
}

impl Stored for u16 {
    ghost stored = { λ v. min v 65535 };

    fn stored(v: u32) -> u16 {
        v.min(65535) as u16
    }
}

// Past the end there is a 0, which no field and no line has.
fn byte_at(s: &[u8], at: usize) -> u8
    ensures { result ≡ get_or s.now at 0 }
{
    s.get(at).copied().unwrap_or(0)
}

fn is_digit(b: u8) -> bool
    ensures { result ≡ is_digit b }
{
    b.is_ascii_digit()
}

fn digit(b: u8) -> u32
    requires { 48 ≤ b }
    ensures { (result ≡ b - 48) × (result < 256) }
{
    u32::from(b - b'0')
}

fn first_column(b: u8) -> Field
    ensures { result ≡ column Field.Blank b }
{
    if b == b' ' {
        return Field::Blank;
    }
    if is_digit(b) {
        return Field::Number(digit(b));
    }
    Field::Bad
}

// A 0 that another digit follows would be a leading zero.
fn next_column(v: u32, b: u8) -> Field
    ensures { result ≡ column (Field.Number v) b }
{
    if is_digit(b) {
        if v == 0 {
            return Field::Bad;
        }
        if v < 10000000 {
            return Field::Number(v * 10 + digit(b));
        }
    }
    Field::Bad
}

fn read_column(f: Field, b: u8) -> Field
    ensures { result ≡ column f b }
{
    match f {
        Field::Blank => first_column(b),
        Field::Number(v) => next_column(v, b),
        Field::Bad => Field::Bad,
    }
}

fn field_at(s: &[u8], at: usize) -> Field
    requires { at < 4294967296 }
    ensures { result ≡ field_at s.now at }
{
    let mut f = Field::Blank;
    for i in 0..8 {
        f = read_column(f, byte_at(s, at + i));
    }
    f
}

fn number_of(f: Field) -> u32
    ensures { result ≡ number_of f }
{
    match f {
        Field::Number(v) => v,
        Field::Blank | Field::Bad => 0,
    }
}

fn number_up_to(limit: u32, f: Field) -> bool
    ensures { result ≡ number_up_to limit f }
{
    match f {
        Field::Number(v) => v <= limit,
        Field::Blank | Field::Bad => false,
    }
}

// The number at a place, 0 where there is none.
pub fn number_at(s: &[u8], at: usize) -> u32
    requires { at < 4294967296 }
    ensures { result ≡ number_of (field_at s.now at) }
{
    number_of(field_at(s, at))
}

// Whether a line of k fields, none above the limit, stands at a place.
pub fn is_line(limit: u32, s: &[u8], at: usize, k: usize) -> bool
    requires { at + 8 * k < 4294967296 }
    ensures { result ≡ is_line limit s.now at k }
{
    for i in 0..k {
        if !number_up_to(limit, field_at(s, at + 8 * i)) {
            return false;
        }
    }
    byte_at(s, at + 8 * k) == b'\n'
}

// Whether h lines of w fields each stand at a place.
pub fn are_rows(limit: u32, s: &[u8], at: usize, w: usize, h: usize) -> bool
    requires { (w ≤ 64) × (h ≤ 64) × (at < 2000000000) }
    ensures { result ≡ are_rows limit s.now at w h }
{
    let mut p = at;
    for _ in 0..h {
        if !is_line(limit, s, p, w) {
            return false;
        }
        p += 8 * w + 1;
    }
    true
}

// A line's numbers, as they are stored, into a slice from a place on.
pub fn read_line<T: Stored>(s: &[u8], at: usize, k: usize, out: &mut [T], from: usize)
    requires { (at + 8 * k < 4294967296) × (from + k ≤ length out.old) }
    ensures { out.new ≡ written out.old from (map T.stored (line_numbers s.now at k)) }
{
    for i in 0..k {
        out[from + i] = T::stored(number_at(s, at + 8 * i));
    }
}

// The numbers of h lines of w fields, each cut to 255, into a slice from the front.
pub fn read_rows(s: &[u8], at: usize, w: usize, h: usize, out: &mut [u8])
    requires { (w ≤ 64) × (h ≤ 64) × (at < 2000000000) × (h * w ≤ length out.old) }
    ensures { out.new ≡ written out.old 0 (cut 255 (row_numbers s.now at w h)) }
{
    let mut p = at;
    for y in 0..h {
        read_line(s, p, w, out, y * w);
        p += 8 * w + 1;
    }
}
