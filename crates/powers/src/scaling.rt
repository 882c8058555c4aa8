// A block times a factor: by doublings where the factor is a power of 2, which cost less than a product.
ghost use Rattle.std.specs.Prelude.{◌≡◌, ◌+◌, ◌<◌, ◌≤◌, IfSome, length};
ghost use Rattle.base.specs.Folds.{table};
ghost use Rattle.gf256.specs.Field.{pow};
ghost use Rattle.passes.specs.Passes.{one, scaled, times};

use gf256::double;
use passes::{double_all, scale_all, set_one, set_scaled};

// How often 1 is doubled to give f, if it is.
fn doublings(f: u8) -> Option<usize>
    ensures { IfSome result (λ e. (e < 8) × (f ≡ pow 2 e)) }
{
    let mut power = 1;
    for e in 0..8 {
        if f == power {
            return Some(e);
        }
        power = double(power);
    }
    None
}

// Doubles out e times.
fn double_times(out: &mut [u8], e: usize)
    ensures { out.new ≡ scaled (pow 2 e) out.old }
{
    for _ in 0..e {
        double_all(out);
    }
}

// Multiplies out by f.
pub fn scale(out: &mut [u8], f: u8)
    ensures { out.new ≡ scaled f out.old }
{
    match doublings(f) {
        Some(e) => double_times(out, e),
        None => scale_all(out, f),
    }
}

// Stores f times the block of src at o.
pub fn scale_one(out: &mut [u8], src: &[u8], o: usize, f: u8)
    requires { o + length out.old ≤ length src.now }
    ensures { out.new ≡ table (length out.old) (times f (one src.now o)) }
{
    match doublings(f) {
        Some(e) => {
            set_one(out, src, o);
            double_times(out, e);
        }
        None => set_scaled(out, src, o, f),
    }
}
