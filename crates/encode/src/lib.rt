// Document 01's call encode: writes all old parity cells and nothing else.
#![tactic(auto)]

ghost use Rattle.std.specs.Prelude.{◌≡◌, ◌<◌, length, IfOk};
ghost use Rattle.answer.specs.Cases.{of_step};
ghost use Rattle.answer.specs.Numbers.{refusal_number};
ghost use Rattle.code.specs.Recognised.{AllRecognised};
ghost use Rattle.layout.specs.Counts.{stripes};
ghost use Rattle.layout.specs.Addresses.{area_length};
ghost use Rattle.growth.specs.Encode.{EncodeOutcome, encode_refusal, encode_stripe, encoded_area, encode};

use answer::{Refusal, Step};
use cells::stripe_offsets;
use counts::addresses::area_length;
use counts::{check_shape, dissolved_count, kept_count};
use layout::{Layout, Shape};

// The refusals of encode.
fn check_encode(z: Shape, area_bytes: usize) -> Result<Layout, Refusal>
    ensures refusal { refusal_number result ≡ encode_refusal z area_bytes }
    ensures layout { IfOk result (λ layout. layout.shape ≡ z) }
{
    let layout = check_shape(z)?;
    if area_bytes != area_length(layout) {
        return Err(Refusal::Length);
    }
    Ok(layout)
}

// Writes the parity rows of stripe g, with the rows' multipliers in m. No row is a column of its stripe, so each is made from the columns
// as they were.
fn encode_stripe(z: Layout, area: &mut [u8], g: usize, m: &[Option<u8>; 4])
    requires area_len { (length area.old ≡ area_length z.shape) × (g < stripes z.shape) }
    requires all_recognised { AllRecognised z.shape.k m.now }
    ensures { area.new ≡ encode_stripe z.shape area.old g area.old }
{
    let mut at = [0usize; 20];
    stripe_offsets(&mut at, z, g);
    let rows = z.shape.n - z.shape.k;
    stripes::write_rows(area, &mut at, z.shape.k, rows, m, z.shape.b);
}

// Every stripe, the kept ones and then the dissolved ones. The rows' multipliers are recognised once for all of them.
fn encode_area(z: Layout, area: &mut [u8])
    requires area_len { length area.old ≡ area_length z.shape }
    ensures { area.new ≡ encoded_area z.shape area.old }
{
    let kept = kept_count(z);
    let all = kept + dissolved_count(z);
    let m = code::multipliers(z.shape.k);
    for g in 0..all {
        encode_stripe(z, area, g, &m);
    }
}

// Writes the parity rows of every stripe, kept and dissolved.
pub fn encode(z: Shape, area: &mut [u8]) -> Result<Step, Refusal>
    ensures { ◌≡◌ {A = EncodeOutcome} (record { answer = of_step result; area = area.new }) (encode z area.old) }
{
    let layout = check_encode(z, area.len())?;
    encode_area(layout, area);
    Ok(Step::Done)
}
