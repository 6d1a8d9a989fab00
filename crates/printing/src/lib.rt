// Prints the listing program's output into a lent slice: fields of 8 columns, lines of them, the lines of calls.
// Open to the crates above only: each function requires its room, and returns the place behind what it printed.
#![tactic(auto)]

ghost use Rattle.std.specs.Prelude.{◌≡◌, cond, [], ◌+◌, ◌*◌, ◌<◌, ◌≤◌, ◌%◌, eqb, length};
ghost use Rattle.lists.specs.Written.{written};
ghost use Rattle.printing.specs.Printing.{field, line, call_line, call_lines, listed, refused};

fn last_digit(v: u32) -> u8
    ensures { result ≡ 48 + v % 10 }
{
    b'0' + (v % 10) as u8
}

// No zeros in front of a number.
fn digit_or_space(v: u32) -> u8
    ensures { result ≡ cond (eqb v 0) 32 (48 + v % 10) }
{
    if v == 0 { b' ' } else { last_digit(v) }
}

pub fn print_field(out: &mut [u8], at: usize, v: u32) -> usize
    requires { at + 8 ≤ length out.old }
    ensures value { result ≡ at + 8 }
    ensures out_after { out.new ≡ written out.old at (field v) }
{
    out[at + 7] = last_digit(v);
    let mut left = v / 10;
    for k in (0..7).rev() {
        out[at + k] = digit_or_space(left);
        left /= 10;
    }
    at + 8
}

pub fn end_line(out: &mut [u8], at: usize) -> usize
    requires { at < length out.old }
    ensures value { result ≡ at + 1 }
    ensures out_after { out.new ≡ written out.old at (line []) }
{
    out[at] = b'\n';
    at + 1
}

fn print_call(out: &mut [u8], at: usize, call: u32) -> usize
    requires { at + 25 ≤ length out.old }
    ensures value { result ≡ at + 25 }
    ensures out_after { out.new ≡ written out.old at (call_line call) }
{
    let second = print_field(out, at, call / 16777216);
    let third = print_field(out, second, call / 65536 % 256);
    let end = print_field(out, third, call % 65536);
    end_line(out, end)
}

fn print_calls(out: &mut [u8], at: usize, calls: &[u32]) -> usize
    requires { at + 25 * length calls.now ≤ length out.old }
    ensures value { result ≡ at + 25 * length calls.now }
    ensures out_after { out.new ≡ written out.old at (call_lines calls.now) }
{
    let mut pos = at;
    for call in calls {
        pos = print_call(out, pos, *call);
    }
    pos
}

// The answer to a palette that is listed.
pub fn print_listed(out: &mut [u8], at: usize, calls: &[u32]) -> usize
    requires { (length calls.now < 4294967296) × (at + (9 + 25 * length calls.now) ≤ length out.old) }
    ensures value { result ≡ at + length (listed calls.now) }
    ensures out_after { out.new ≡ written out.old at (listed calls.now) }
{
    let end = print_field(out, at, calls.len() as u32);
    let first = end_line(out, end);
    print_calls(out, first, calls)
}

// The answer to a refused text or palette.
pub fn print_refused(out: &mut [u8], at: usize, number: u32) -> usize
    requires { at + 17 ≤ length out.old }
    ensures value { result ≡ at + length (refused number) }
    ensures out_after { out.new ≡ written out.old at (refused number) }
{
    let second = print_field(out, at, 0);
    let end = print_field(out, second, number);
    end_line(out, end)
}
