// Counts of bits, and tests of a block's sides. Each function but `top_level` answers for all arguments.
#![tactic(auto)]

ghost use Rattle.std.specs.Prelude.{◌≡◌, ◌-◌, ◌^◌, ◌≤◌};
ghost use Rattle.counts.specs.Counts.{ceil_log2, uniform_bits, orient_sent, block_allowed};

// The least b with v <= 2^b; 0 and 1 give 0.
pub fn ceil_log2(v: u32) -> u32
    ensures { result ≡ ceil_log2 v }
{
    if v <= 1 {
        return 0;
    }
    32 - u32::leading_zeros(v - 1)
}

// The width of value v among n values; 0 where n is 0.
pub fn uniform_bits(v: u32, n: u32) -> u32
    ensures { result ≡ uniform_bits v n }
{
    if n == 0 {
        return 0;
    }
    let l = 32 - u32::leading_zeros(n);
    let short = (1u64 << l) - n as u64;
    if (v as u64) < short { l - 1 } else { l }
}

// The largest level of the depth.
pub fn top_level(bd: u32) -> u16
    requires { bd ≤ 12 }
    ensures { result ≡ 2 ^ bd - 1 }
{
    (1u16 << bd) - 1
}

// Whether an orientation bit is sent: both sides are below 64.
pub fn orient_sent(width: usize, height: usize) -> bool
    ensures { result ≡ orient_sent width height }
{
    (width < 64) & (height < 64)
}

// Sides in units of 4. The sides are tested first, so that the product cannot overflow.
#[tactic(auto, unfolding(crate::specs::Counts::block_allowed))]
pub fn block_allowed(bw4: usize, bh4: usize) -> bool
    ensures { result ≡ block_allowed bw4 bh4 }
{
    bw4 <= 16 && bh4 <= 16 && 4 <= bw4 * bh4
}
