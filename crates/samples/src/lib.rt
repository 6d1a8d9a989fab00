// Which lambdas, costs and samples are within their ranges, the level of a sample, and the f32 nearest to an f64.
// Where a function has a `requires`, the crates above have tested it before they call.
#![tactic(auto)]

ghost use Rattle.std.specs.Prelude.{◌≡◌, ◌≤◌, ◌<◌, ◌^◌};
ghost use Rattle.std.specs.Float.{binary32, binary64};
ghost use Rattle.std.specs.Float.Ieee.{of_bits};
ghost use Rattle.std.specs.Float.Ieee.Nearest.{closest};
ghost use Rattle.ieee.specs.Bounds.{Within};
ghost use Rattle.samples.specs.Samples.{in_range, all_in_range, lambda_ok, costs_ok, samples_ok, level_of};
ghost use Rattle.samples.specs.Narrow.{narrow_of};

// Number 4: lambda is within 0..2^20.
pub fn lambda_ok(lambda: f32) -> bool
    ensures { result ≡ lambda_ok lambda }
{
    in_range(lambda, 1048576)
}

// Number 5: there are 301 costs, each within 0..32.
pub fn costs_ok(costs: &[f32]) -> bool
    ensures { result ≡ costs_ok costs.now }
{
    costs.len() == 301 && all_in_range(costs, 32)
}

// Number 6: each sample is within 0..2^bd - 1.
pub fn samples_ok(samples: &[f32], bd: u32) -> bool
    requires { (8 ≤ bd) × (bd ≤ 12) }
    ensures { result ≡ samples_ok bd samples.now }
{
    all_in_range(samples, u32::from(counts::top_level(bd)))
}

// Whether x is within 0..top. A NaN is not at most top, and of the floats with a sign only -0.0 is within: the bits tell it
// from a negative subnormal, which `x >= 0.0` does not where the float unit takes subnormals for 0.
fn in_range(x: f32, top: u32) -> bool
    requires { top ≤ 2 ^ 24 }
    ensures { result ≡ in_range top x }
{
    x <= top as f32 && f32::to_bits(x) <= 0x8000_0000
}

// Whether each float is within 0..top. It looks at all of them: without a way out the loop is quicker.
fn all_in_range(xs: &[f32], top: u32) -> bool
    requires { top ≤ 2 ^ 24 }
    ensures { result ≡ all_in_range top xs.now }
{
    let mut ok = true;
    for x in xs {
        ok &= in_range(*x, top);
    }
    ok
}

// The level of a sample: rounded half away from zero. From its bits the sample is m * 2^(e - 150), so twice it has the whole
// part m >> (149 - e), and half of one more is the level.
pub fn level_of(x: f32) -> u16
    requires { Within x 4095 }
    ensures { result ≡ level_of x }
{
    let b = f32::to_bits(x) % 0x8000_0000;
    let e = b / 0x80_0000;
    let m = b % 0x80_0000 + 0x80_0000;
    if e < 126 {
        return 0;
    }
    (((m >> (149 - e)) + 1) / 2) as u16
}

// n / 2^s to the nearest whole number, ties to the even one. The last digit of twice the quotient is the half that decides.
fn half_even(n: u64, s: u64) -> u64
    requires { (n < 2 ^ 53) × (1 ≤ s) × (s ≤ 53) }
    ensures { result ≡ closest n (2 ^ s) }
{
    let t = n >> (s - 1);
    let h = t / 2;
    if t % 2 == 0 {
        return h;
    }
    if (t << (s - 1)) == n {
        return h + h % 2;
    }
    h + 1
}

// The bits of the f32 nearest to the f64 of the bits b, which has no sign and is no NaN. It is m * 2^(e - 1075), with m of 53
// binary digits. Of these 24 are kept, and below 2^-126, where e is below 897, as many as reach the units of 2^-149.
// What is kept of m carries into the exponent by itself.
fn narrow_bits(b: u64) -> u64
    requires { b ≤ 0x7ff0_0000_0000_0000 }
    ensures { (result ≤ 0x7f80_0000) × (of_bits binary32 result ≡ narrow_of (of_bits binary64 b)) }
{
    let e = b / 0x10_0000_0000_0000;
    let m = b % 0x10_0000_0000_0000 + 0x10_0000_0000_0000;
    if e < 873 {
        return 0;
    }
    if e < 897 {
        return half_even(m, 926 - e);
    }
    if e > 1150 {
        return 0x7f80_0000;
    }
    (e - 897) * 0x80_0000 + half_even(m, 29)
}

// The f32 nearest to x, from its bits alone: no float is computed, so that no mode of the float unit changes the answer.
pub fn narrow(x: f64) -> f32
    ensures { result ≡ narrow_of x }
{
    if x == x {
        let b = f64::to_bits(x);
        let r = narrow_bits(b % 0x8000_0000_0000_0000);
        return f32::from_bits((b / 0x8000_0000_0000_0000 * 0x8000_0000 + r) as u32);
    }
    0.0 / 0.0
}
