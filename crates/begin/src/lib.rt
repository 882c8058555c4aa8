// Document 01's call begin: verifies all stripes, zeroes the new nodes, writes a fresh journal.
#![tactic(auto)]

ghost use Rattle.std.specs.Prelude.{◌≡◌, ◌<◌, length, IfOk};
ghost use Rattle.base.specs.Tests.{every};
ghost use Rattle.answer.specs.Cases.{of_step};
ghost use Rattle.answer.specs.Numbers.{refusal_number};
ghost use Rattle.code.specs.Recognised.{AllRecognised};
ghost use Rattle.layout.specs.Counts.{stripes};
ghost use Rattle.layout.specs.Addresses.{area_length};
ghost use Rattle.growth.specs.Shared.{Outcome};
ghost use Rattle.growth.specs.Begin.{stripe_holds, begin_refusal, begun_area, begin};

use answer::{Refusal, Step};
use cells::stripe_offsets;
use counts::addresses::node_start_byte;
use counts::{kept_count, stripe_count};
use journal::fresh::write_fresh;
use layout::{Layout, Shape};
use lent::check_store;

// Whether each parity row of stripe g is what its columns give, with the rows' multipliers in m.
fn stripe_holds(z: Layout, area: &[u8], g: usize, m: &[Option<u8>; 4]) -> bool
    requires area_len { (length area.now ≡ area_length z.shape) × (g < stripes z.shape) }
    requires all_recognised { AllRecognised z.shape.k m.now }
    ensures { result ≡ stripe_holds z.shape area.now g }
{
    let mut at = [0usize; 20];
    stripe_offsets(&mut at, z, g);
    let rows = z.shape.n - z.shape.k;
    stripes::rows_hold(area, &mut at, z.shape.k, rows, m, z.shape.b)
}

// Whether that is so of every stripe. The rows' multipliers are recognised once for all of them.
fn all_hold(z: Layout, area: &[u8]) -> bool
    requires area_len { length area.now ≡ area_length z.shape }
    ensures { result ≡ every (stripes z.shape) (stripe_holds z.shape area.now) }
{
    let m = code::multipliers(z.shape.k);
    for g in 0..stripe_count(z) {
        if !stripe_holds(z, area, g, &m) {
            return false;
        }
    }
    true
}

// The refusals of begin.
fn check_begin(
    z: Shape,
    area: &[u8],
    journal_words: usize,
    number: usize,
) -> Result<Layout, Refusal>
    ensures refusal { refusal_number result ≡ begin_refusal z area.now journal_words number }
    ensures layout { IfOk result (λ layout. layout.shape ≡ z) }
{
    let layout = check_store(z, area.len(), journal_words)?;
    if number >= 268435456 {
        return Err(Refusal::OutOfRange);
    }
    if !all_hold(layout, area) {
        return Err(Refusal::Inconsistent);
    }
    Ok(layout)
}

// Zeroes the parts of the new nodes.
fn zero_new_nodes(z: Layout, area: &mut [u8])
    requires area_len { length area.old ≡ area_length z.shape }
    ensures { area.new ≡ begun_area z.shape area.old }
{
    let Shape { n, s, b, .. } = z.shape;
    let bytes = kept_count(z) * b;
    for v in n..n + s {
        area::zero(area, node_start_byte(z, v), bytes);
    }
}

// Begins a growth with a number: verifies every stripe, then zeroes the new nodes and writes a fresh journal.
pub fn begin(z: Shape, area: &mut [u8], journal: &mut [u32], number: usize) -> Result<Step, Refusal>
    ensures { ◌≡◌ {A = Outcome} (record { answer = of_step result; area = area.new; journal = journal.new })
        (begin z area.old journal.old number) }
{
    let layout = check_begin(z, area, journal.len(), number)?;
    zero_new_nodes(layout, area);
    write_fresh(journal, layout, number);
    Ok(Step::Done)
}
