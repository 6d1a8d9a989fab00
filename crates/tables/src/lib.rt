// The default tables of the palette symbols, with readers that answer for all arguments. The numbers are the Rust's.
#![tactic(auto)]

ghost use Rattle.std.specs.Prelude.{◌≡◌};
ghost use Rattle.tables.specs.Icdf.{size_icdf, row_icdf, color_rows};

use std::array;

static Y_SIZE_ICDF: [u16; 6] = [23989, 17673, 11991, 7865, 4845, 2365];

// One row for each line context; 3 is the first line's.
static ROW_ICDF: [[u16; 2]; 4] = [[10253, 7017], [28754, 27535], [29220, 28605], [19769, 12]];

// One block of rows for each number of colours from 2, in it one row for each context.
static COLOR_ICDF: [[[u16; 7]; 5]; 7] = [
    [
        [4628, 0, 0, 0, 0, 0, 0],
        [16384, 0, 0, 0, 0, 0, 0],
        [24186, 0, 0, 0, 0, 0, 0],
        [5355, 0, 0, 0, 0, 0, 0],
        [2339, 0, 0, 0, 0, 0, 0],
    ],
    [
        [7418, 3742, 0, 0, 0, 0, 0],
        [21405, 7495, 0, 0, 0, 0, 0],
        [25927, 4189, 0, 0, 0, 0, 0],
        [11418, 6756, 0, 0, 0, 0, 0],
        [2195, 1122, 0, 0, 0, 0, 0],
    ],
    [
        [9062, 5806, 3708, 0, 0, 0, 0],
        [22792, 10252, 5386, 0, 0, 0, 0],
        [26077, 7308, 3534, 0, 0, 0, 0],
        [13859, 8843, 4365, 0, 0, 0, 0],
        [2460, 1692, 950, 0, 0, 0, 0],
    ],
    [
        [8652, 5811, 4282, 2827, 0, 0, 0],
        [23200, 12296, 8474, 3826, 0, 0, 0],
        [27062, 7525, 4728, 2362, 0, 0, 0],
        [12663, 9786, 5744, 3857, 0, 0, 0],
        [1871, 1426, 1002, 569, 0, 0, 0],
    ],
    [
        [11944, 8541, 6842, 5309, 3502, 0, 0],
        [24627, 13779, 11169, 6586, 4192, 0, 0],
        [27516, 8428, 6318, 4330, 2143, 0, 0],
        [13249, 10073, 7181, 5796, 4345, 0, 0],
        [2385, 1878, 1521, 1115, 618, 0, 0],
    ],
    [
        [11140, 8256, 6895, 5714, 4637, 3229, 0],
        [24740, 14504, 12155, 7344, 5656, 3862, 0],
        [26279, 10526, 8307, 6374, 4418, 2258, 0],
        [10720, 8339, 5778, 4824, 4351, 3194, 0],
        [1967, 1563, 1296, 1040, 763, 463, 0],
    ],
    [
        [10297, 7685, 6784, 5875, 5114, 4018, 2865],
        [25226, 15711, 13617, 9218, 7309, 5702, 3964],
        [25186, 12331, 10040, 8146, 6253, 4189, 2136],
        [10666, 8624, 5852, 4617, 3922, 3556, 2615],
        [2244, 1881, 1612, 1375, 1142, 857, 487],
    ],
];

// Number k of the size row; 0 past its end.
#[tactic(auto, unfolding(crate::specs::Icdf::size_icdf, crate::specs::Icdf::size_table))]
pub fn y_size_icdf(k: usize) -> u16
    ensures { result ≡ size_icdf k }
{
    Y_SIZE_ICDF.get(k).copied().unwrap_or(0)
}

// Number k of the row of a line context; 0 where there is none.
#[tactic(auto, unfolding(crate::specs::Icdf::row_icdf, crate::specs::Icdf::row_table))]
pub fn row_icdf(context: usize, k: usize) -> u16
    ensures { result ≡ row_icdf context k }
{
    if context < 4 && k < 2 {
        return ROW_ICDF[context][k];
    }
    0
}

// All rows of COLOR_ICDF, one behind the other: by n, then by context.
pub fn color_rows() -> [u16; 245]
    ensures { result ≡ color_rows }
{
    array::from_fn(|k| COLOR_ICDF[k / 35][k / 7 % 5][k % 7])
}
