// Blocks on lent slices: copy, zero, add and compare, between two slices and inside one; two scratch blocks.
// A block is b bytes from an offset on. A part of a slice, from anywhere, is a slice of its own.
#![tactic(auto)]

pub mod product;

ghost use Rattle.std.specs.Prelude.{◌≡◌, ◌⊎◌, ◌+◌, ◌≤◌, length};
ghost use Rattle.area.specs.Area.{block, put, zeros, same_bytes, xor_blocks};
ghost use Rattle.area.specs.Scratch.{blank_scratch, blank_small};

// Zeroes `count` bytes from `at` on: a block, or slots one after the other.
pub fn zero(area: &mut [u8], at: usize, count: usize)
    requires { at + count ≤ length area.old }
    ensures { area.new ≡ put area.old at (zeros count) }
{
    for i in 0..count {
        area[at + i] = 0;
    }
}

// Stores the block of src at `from` in dst at `at`.
pub fn copy(dst: &mut [u8], at: usize, src: &[u8], from: usize, b: usize)
    requires { (at + b ≤ length dst.old) × (from + b ≤ length src.now) }
    ensures { dst.new ≡ put dst.old at (block src.now from b) }
{
    for i in 0..b {
        dst[at + i] = src[from + i];
    }
}

// Stores the block at `from` at `at`, in one area, where the two do not meet.
pub fn copy_within(area: &mut [u8], at: usize, from: usize, b: usize)
    requires b_in_bounds { (at + b ≤ length area.old) × (from + b ≤ length area.old) }
    requires fact { (from + b ≤ at) ⊎ (at + b ≤ from) }
    ensures { area.new ≡ put area.old at (block area.old from b) }
{
    for i in 0..b {
        area[at + i] = area[from + i];
    }
}

// Adds the block of src at `from` to that of dst at `at`.
pub fn add(dst: &mut [u8], at: usize, src: &[u8], from: usize, b: usize)
    requires { (at + b ≤ length dst.old) × (from + b ≤ length src.now) }
    ensures { dst.new ≡ put dst.old at
        (xor_blocks b (block dst.old at b) (block src.now from b)) }
{
    for i in 0..b {
        dst[at + i] = dst[at + i] ^ src[from + i];
    }
}

// Whether the block of x at `at` and that of y at `from` are the same. Every byte is looked at: a loop that leaves early
// does not vectorise.
pub fn equal(x: &[u8], at: usize, y: &[u8], from: usize, b: usize) -> bool
    requires { (at + b ≤ length x.now) × (from + b ≤ length y.now) }
    ensures { result ≡ same_bytes (block x.now at b) (block y.now from b) }
{
    let mut differ: u8 = 0;
    for i in 0..b {
        differ = differ | (x[at + i] ^ y[from + i]);
    }
    if differ == 0 {
        return true;
    }
    false
}

// A scratch block. Its owner lends the part that it needs, `&mut scratch[..b]`.
pub fn scratch() -> [u8; 4096]
    ensures { result ≡ blank_scratch }
{
    [0u8; 4096]
}

// A small scratch block, for blocks of at most 256 bytes: to make a whole one costs more than to use it.
pub fn small() -> [u8; 256]
    ensures { result ≡ blank_small }
{
    [0u8; 256]
}
