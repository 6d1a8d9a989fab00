// The order in which a map's lines are walked, and a line filled or copied. Functions may have a `requires`.
#![tactic(auto)]

ghost use Rattle.std.specs.Prelude.{◌≡◌, ◌+◌, ◌*◌, ◌-◌, ◌<◌, length};
ghost use Rattle.context.specs.Map.{row_at, col_at};
ghost use Rattle.near.specs.Near.{Below};
ghost use Rattle.scan.specs.Scan.{scan_of, place_at, cell_in, fill, key_in, Sound};

use near::Key;
use rows::Codes;

// The order in which a map is walked: cell a of line l stands at l * stride + a * step.
#[derive(Clone, Copy)]
pub struct Scan {
    pub w: usize,
    pub stride: usize,
    pub step: usize,
    pub lines: usize,
    pub len: usize,
    pub transposed: bool,
}

impl Scan {
    pub fn new(w: usize, h: usize, transposed: bool) -> Self
        ensures { result ≡ scan_of w h transposed }
    {
        let (stride, step, lines, len) = if transposed {
            (1, w, w, h)
        } else {
            (w, 1, h, w)
        };
        Scan {
            w,
            stride,
            step,
            lines,
            len,
            transposed,
        }
    }

    pub fn place(self, l: usize, a: usize) -> usize
        requires { place_at self l a < 4096 }
        ensures { result ≡ place_at self l a }
    {
        l * self.stride + a * self.step
    }

    // Line l all of index i.
    pub fn fill_line(self, map: &mut [u8], l: usize, i: u8)
        requires { Sound self (length map.old) × (l < self.lines) }
        ensures { map.new ≡ fill self l (λ a. i) map.old self.len }
    {
        for a in 0..self.len {
            map[self.place(l, a)] = i;
        }
    }

    // Line l as the line before it.
    pub fn copy_line(self, map: &mut [u8], l: usize)
        requires { Sound self (length map.old) × (l < self.lines) × (0 < l) }
        ensures { map.new ≡ fill self l (λ a. cell_in map.old self (l - 1) a) map.old self.len }
    {
        for a in 0..self.len {
            map[self.place(l, a)] = map[self.place(l - 1, a)];
        }
    }

    // The row of cell a of line l in the tables of `rows`, and its context.
    pub fn key_cell(self, map: &[u8], codes: &Codes, l: usize, a: usize) -> Key
        requires { (row_at self.transposed l a * self.w + col_at self.transposed l a < length map.now) × Below map.now 8 }
        ensures { result ≡ key_in map.now self l a }
    {
        if self.transposed {
            return near::key_at(map, codes, self.w, a, l);
        }
        near::key_at(map, codes, self.w, l, a)
    }
}
