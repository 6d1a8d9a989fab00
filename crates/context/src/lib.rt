// An index map's words: index, rank and level, and its lines. What comes first at a cell, its order and its ranks are defined
// and their laws proved here; `rows` has them as tables.
#![tactic(auto)]

ghost use Rattle.std.specs.Prelude.{◌≡◌};
ghost use Rattle.context.specs.Map.{lines_of, length_of};

// An index: the place of a colour in the palette, as the map holds it.
// Stays (5): a ghost field for its bound would ask for a proof wherever one is taken from a map, which may hold anything.
#[derive(Clone, Copy)]
pub struct Index(pub u8);

// A rank: the place of an index in a context's order.
#[derive(Clone, Copy)]
pub struct Rank(pub u8);

// A level: the value of a sample or a colour.
#[derive(Clone, Copy)]
pub struct Level(pub u16);

// How many lines a map has, and how many places a line: rows, or columns when transposed.
pub fn lines_of(transposed: bool, width: usize, height: usize) -> usize
    ensures { result ≡ lines_of transposed width height }
{
    if transposed { width } else { height }
}

pub fn length_of(transposed: bool, width: usize, height: usize) -> usize
    ensures { result ≡ length_of transposed width height }
{
    if transposed { height } else { width }
}
