// The context at a cell of an index map, with the order of its indices and their ranks. `color_ctx` answers for all
// arguments; the other functions may have a `requires`.
#![tactic(auto)]

ghost use Rattle.std.specs.Prelude.{◌≡◌, ◌+◌, ◌*◌, ◌≤◌, ◌<◌, min};
ghost use Rattle.context.specs.Order.{by_three};
ghost use Rattle.color_ctx.specs.Context.{answered, context_of};
ghost use Rattle.color_ctx.specs.Parts.{neighbour_at, one_at, three_at, told};

use context::{Index, Rank};
use refusals::Refusal;
use rows::Tables;

// The answer: number 0, the context, the index of each rank and the rank of each index below n, then zeros; or number 18 and
// zeros.
// Stays (1): `palette::color_ctx` hands it out with its number.
#[derive(Clone, Copy)]
pub struct Context {
    pub number: u32,
    pub ctx: usize,
    pub order: [u8; 8],
    pub ranks: [u8; 8],
}

// y * stride + x, or len where that is past the end: no len is above what a product too large is taken for.
fn place_of(len: usize, stride: usize, y: usize, x: usize) -> usize
    ensures { result ≡ min (y * stride + x) len }
{
    let row = y.saturating_mul(stride);
    row.saturating_add(x).min(len)
}

// The neighbour at a place of the map: none where that is past the map's end or not below n.
fn neighbour_at(map: &[u8], at: usize, n: u8) -> Option<Index>
    ensures { result ≡ neighbour_at map.now n at }
{
    map.get(at).copied().filter(|v| *v < n).map(Index)
}

// The row of three neighbours, handed out: what it has below n, then zeros.
fn answer(left: Index, top: Index, diag: Index, n: u8) -> Context
    requires { (left.0 < n) × (top.0 < n) × (diag.0 < n) × (n ≤ 8) }
    ensures { result ≡ answered (by_three left.0 top.0 diag.0) n }
{
    let tables = Tables::new();
    let row = rows::row_of(left, top, diag);
    let mut order = [0u8; 8];
    let mut ranks = [0u8; 8];
    for i in 0..n {
        let at = usize::from(i);
        let rank = tables.codes.rank_at(row, Index(i)).0;
        order[at] = tables.orders.index_at(row, Rank(i)).0;
        ranks[at] = rank;
    }
    Context {
        number: 0,
        ctx: tables.codes.ctx_at(row),
        order,
        ranks,
    }
}

// From the neighbours at three places.
fn from_three(map: &[u8], left: usize, top: usize, diag: usize, n: u8) -> Option<Context>
    requires { n ≤ 8 }
    ensures { told result ≡ three_at map.now n left top diag }
{
    let l = neighbour_at(map, left, n)?;
    let t = neighbour_at(map, top, n)?;
    let d = neighbour_at(map, diag, n)?;
    Some(answer(l, t, d, n))
}

// One neighbour has the order of three equal ones, and context 0.
fn from_one(map: &[u8], at: usize, n: u8) -> Option<Context>
    requires { n ≤ 8 }
    ensures { told result ≡ one_at map.now n at }
{
    let v = neighbour_at(map, at, n)?;
    Some(Context {
        ctx: 0,
        ..answer(v, v, v, n)
    })
}

// None where the question is refused.
fn context_at(map: &[u8], stride: usize, y: usize, x: usize, n: usize) -> Option<Context>
    ensures { told result ≡ context_of map.now stride y x n }
{
    if n < 2 || 8 < n || stride <= x {
        return None;
    }
    let m = n as u8;
    match (y, x) {
        (0, 0) => None,
        (0, _) => from_one(map, x - 1, m),
        (_, 0) => from_one(map, place_of(map.len(), stride, y - 1, 0), m),
        _ => {
            let left = place_of(map.len(), stride, y, x - 1);
            if left == map.len() {
                return None;
            }
            // Left is the last of the three, so the others stand in the map too.
            from_three(map, left, left + 1 - stride, left - stride, m)
        }
    }
}

// The context at row y and column x of a map, with the order of the n indices there and their ranks.
pub fn color_ctx(map: &[u8], stride: usize, y: usize, x: usize, n: usize) -> Context
    ensures { result ≡ context_of map.now stride y x n }
{
    context_at(map, stride, y, x, n).unwrap_or(Context {
        number: Refusal::Context.number(),
        ctx: 0,
        order: [0; 8],
        ranks: [0; 8],
    })
}
