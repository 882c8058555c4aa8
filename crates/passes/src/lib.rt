// One pass over a block: each byte is read and written once.
#![tactic(auto)]

pub mod multiples;

ghost use Rattle.std.specs.Prelude.{◌≡◌, ℕ, ◌+◌, ◌≤◌, ◌<◌, get_or, length};
ghost use Rattle.base.specs.Folds.{table};
ghost use Rattle.gf256.specs.Field.{mul, ◌⊕◌};
ghost use Rattle.passes.specs.Passes.{one, two, three, four, doubled, plus, scaled, times};

use area::product::mul_bitwise;
use gf256::double;
use multiples::times;

// Makes each byte of out what f gives for its place and what it was.
fn each<F: Fn(usize, u8) -> u8>(out: &mut [u8], f: F)
    requires { (i x : ℕ) → i < length out.old → x < 256 → F.pre f i x }
    ensures { (i : ℕ) → i < length out.old → F.post f i (get_or out.old i 0) (get_or out.new i 0) }
{
    for (i, byte) in out.iter_mut().enumerate() {
        *byte = f(i, *byte);
    }
}

// Stores the block of src at o.
pub fn set_one(out: &mut [u8], src: &[u8], o: usize)
    requires { o + length out.old ≤ length src.now }
    ensures { out.new ≡ table (length out.old) (one src.now o) }
{
    let end = o + out.len();
    out.copy_from_slice(&src[o..end]);
}

// Stores the sum of the blocks at o and p.
pub fn set_two(out: &mut [u8], src: &[u8], o: usize, p: usize)
    requires { (o + length out.old ≤ length src.now) × (p + length out.old ≤ length src.now) }
    ensures { out.new ≡ table (length out.old) (two src.now o p) }
{
    each(out, |i, _| src[o + i] ^ src[p + i]);
}

// Adds the block at o.
pub fn add_one(out: &mut [u8], src: &[u8], o: usize)
    requires { o + length out.old ≤ length src.now }
    ensures { out.new ≡ plus out.old (one src.now o) }
{
    each(out, |i, x| x ^ src[o + i]);
}

// Adds the blocks at o and p.
pub fn add_two(out: &mut [u8], src: &[u8], o: usize, p: usize)
    requires { (o + length out.old ≤ length src.now) × (p + length out.old ≤ length src.now) }
    ensures { out.new ≡ plus out.old (two src.now o p) }
{
    each(out, |i, x| x ^ (src[o + i] ^ src[p + i]));
}

// Adds the blocks at o, p, u and v.
pub fn add_four(out: &mut [u8], src: &[u8], o: usize, p: usize, u: usize, v: usize)
    requires out_in_bounds { (o + length out.old ≤ length src.now) × (p + length out.old ≤ length src.now) }
    requires out_in_bounds_2 { (u + length out.old ≤ length src.now) × (v + length out.old ≤ length src.now) }
    ensures { out.new ≡ plus out.old (four src.now o p u v) }
{
    each(
        out,
        |i, x| x ^ ((src[o + i] ^ src[p + i]) ^ (src[u + i] ^ src[v + i])),
    );
}

// Doubles out.
pub fn double_all(out: &mut [u8])
    ensures { out.new ≡ doubled out.old }
{
    each(out, |_, x| double(x));
}

// Doubles out and adds the block at o.
pub fn double_add_one(out: &mut [u8], src: &[u8], o: usize)
    requires { o + length out.old ≤ length src.now }
    ensures { out.new ≡ plus (doubled out.old) (one src.now o) }
{
    each(out, |i, x| double(x) ^ src[o + i]);
}

// Doubles out and adds the blocks at o and p.
pub fn double_add_two(out: &mut [u8], src: &[u8], o: usize, p: usize)
    requires { (o + length out.old ≤ length src.now) × (p + length out.old ≤ length src.now) }
    ensures { out.new ≡ plus (doubled out.old) (two src.now o p) }
{
    each(out, |i, x| double(x) ^ (src[o + i] ^ src[p + i]));
}

// Doubles out and adds the blocks at o, p and u.
pub fn double_add_three(out: &mut [u8], src: &[u8], o: usize, p: usize, u: usize)
    requires out_in_bounds { (o + length out.old ≤ length src.now) × (p + length out.old ≤ length src.now) }
    requires out_in_bounds_2 { u + length out.old ≤ length src.now }
    ensures { out.new ≡ plus (doubled out.old) (three src.now o p u) }
{
    each(
        out,
        |i, x| double(x) ^ ((src[o + i] ^ src[p + i]) ^ src[u + i]),
    );
}

// Doubles out and adds the blocks at o, p, u and v.
pub fn double_add_four(out: &mut [u8], src: &[u8], o: usize, p: usize, u: usize, v: usize)
    requires out_in_bounds { (o + length out.old ≤ length src.now) × (p + length out.old ≤ length src.now) }
    requires out_in_bounds_2 { (u + length out.old ≤ length src.now) × (v + length out.old ≤ length src.now) }
    ensures { out.new ≡ plus (doubled out.old) (four src.now o p u v) }
{
    each(
        out,
        |i, x| double(x) ^ ((src[o + i] ^ src[p + i]) ^ (src[u + i] ^ src[v + i])),
    );
}

// Stores f times the block at o.
pub fn set_scaled(out: &mut [u8], src: &[u8], o: usize, f: u8)
    requires { o + length out.old ≤ length src.now }
    ensures { out.new ≡ table (length out.old) (times f (one src.now o)) }
{
    each(out, |i, _| mul_bitwise(f, src[o + i]));
}

// Multiplies out by f.
pub fn scale_all(out: &mut [u8], f: u8)
    ensures { out.new ≡ scaled f out.old }
{
    each(out, |_, x| mul_bitwise(f, x));
}

// A step of Horner's rule: multiplies out by M and adds the block at o.
pub fn step<const M: u8>(out: &mut [u8], src: &[u8], o: usize)
    requires { o + length out.old ≤ length src.now }
    ensures { out.new ≡ plus (scaled M out.old) (one src.now o) }
{
    each(
        out,
        |i, x|
            requires { o + i < length src.now }
            ensures { result ≡ mul M x ⊕ get_or src.entry.now (o + i) 0 }
        { times(M, x) ^ src[o + i] },
    );
}
