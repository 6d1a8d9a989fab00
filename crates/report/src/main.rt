// The block report: palettes one after the other on standard input, a line for each and one with the totals on standard output.
// The input goes through a window of 65,536 bytes. A turn is one of the loop in `StepsReport` (crate reporting), which says that
// the turns print the whole input's report; it stands at this room in the proofs (`read_enough`).
#![tactic(auto)]

ghost use Rattle.std.specs.Prelude.{◌≡◌, ◌-◌, ◌≤◌, length, take, IfOk, OnErr};
ghost use Rattle.window.specs.Window.{view, Inside};
ghost use Rattle.reporting.specs.Steps.{Fits};
ghost use Rattle.report.specs.Turn.{Turns};

use reporting::Page;
use std::io;
use std::io::{Read, Write};
use window::Window;

// A turn: how many bytes it printed, how many it took (0 where the reading has ended), the page and the window after it.
// Stays (1): `Turns` has the number taken, as `Steps` of crate reporting does.
#[derive(Drop)]
pub struct Turned {
    pub count: usize,
    pub taken: usize,
    pub page: Page,
    pub window: Window,
}

// Reads more where there is not enough for a step, steps, and drops what the step took. Where the read fails nothing was
// printed, and what was before the program stands at the buffer's front.
fn turn<R: Read>(
    input: &mut R,
    buf: &mut [u8],
    w: Window,
    p: Page,
    out: &mut [u8],
) -> io::Result<Turned>
    requires { Inside w buf.old × (length buf.old ≡ 65536) × Fits p × (p.lines ≤ 9999) × (90 ≤ length out.old) }
    ensures turns { IfOk result (λ r. Turns w p buf.old buf.new out.old out.new r) }
    ensures fits { IfOk result (λ r. Fits r.page × (r.count ≤ 90)) }
    ensures err { OnErr result ((out.new ≡ out.old) × (take (w.end - w.at) buf.new ≡ view w buf.old)) }
{
    let held = window::hold(input, buf, w, 33972)?;
    let s = reporting::step(&buf[held.at..held.end], p, out);
    Ok(Turned {
        count: s.count,
        taken: s.taken,
        page: s.page,
        window: Window {
            at: held.at + s.taken,
            ..held
        },
    })
}

// Turn after turn, until the reading ends.
fn walk<R: Read, W: Write>(input: &mut R, out: &mut W, buf: &mut [u8]) -> io::Result<()>
    requires { length buf.old ≡ 65536 }
{
    let mut line = [0u8; 90];
    let mut w = window::unread_input();
    let mut page = reporting::blank_page();
    loop {
        let r = turn(input, buf, w, page, &mut line)?;
        out.write_all(&line[..r.count])?;
        if r.taken == 0 {
            return Ok(());
        }
        page = r.page;
        w = r.window;
    }
}

fn main(rt: HostRuntime) -> io::Result<()> {
    let mut buf = [0u8; 65536];
    walk(&mut rt.stdin(), &mut rt.stdout(), &mut buf)
}
