// The row of a cell in the tables of `rows`, and its context: where map search, listing and reading take order and rank
// from. Functions may have a `requires`.
#![tactic(auto)]

ghost use Rattle.std.specs.Prelude.{◌≡◌, ◌+◌, ◌*◌, ◌<◌, length};
ghost use Rattle.near.specs.Near.{edge_key, three_key, key_at, Below};

use context::Index;
use rows::Codes;

#[derive(Clone, Copy)]
pub struct Key {
    pub row: usize,
    pub ctx: usize,
}

// One neighbour has the order of three equal ones, and context 0.
pub fn edge_key(near: Index) -> Key
    requires { near.0 < 8 }
    ensures { result ≡ edge_key near.0 }
{
    Key {
        row: rows::row_of(near, near, near),
        ctx: 0,
    }
}

pub fn three_key(codes: &Codes, left: Index, top: Index, diag: Index) -> Key
    requires { (left.0 < 8) × (top.0 < 8) × (diag.0 < 8) }
    ensures { result ≡ three_key left.0 top.0 diag.0 }
{
    let row = rows::row_of(left, top, diag);
    Key {
        row,
        ctx: codes.ctx_at(row),
    }
}

// At row y and column x of a row-major map of width w; at (0,0) as if index 0 stood beside it.
pub fn key_at(map: &[u8], codes: &Codes, w: usize, y: usize, x: usize) -> Key
    requires { (y * w + x < length map.now) × Below map.now 8 }
    ensures { result ≡ key_at map.now w y x }
{
    let p = y * w + x;
    match (y, x) {
        (0, 0) => edge_key(Index(0)),
        (0, _) => edge_key(Index(map[p - 1])),
        (_, 0) => edge_key(Index(map[p - w])),
        _ => {
            let left = Index(map[p - 1]);
            let top = Index(map[p - w]);
            let diag = Index(map[p - w - 1]);
            three_key(codes, left, top, diag)
        }
    }
}
