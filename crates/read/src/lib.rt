// Document 01's call read: a block as a part of the lent area, wherever it now is; and locate, which tells where that part starts.
#![tactic(auto)]

ghost use Rattle.std.specs.Prelude.{◌≡◌, ◌&&◌, ◌+◌, ◌<◌, ◌≤◌, leb, ltb, IfOk};
ghost use Rattle.base.specs.Tests.{only_if};
ghost use Rattle.layout.specs.Counts.{kept, stripes};
ghost use Rattle.layout.specs.Addresses.{area_length};
ghost use Rattle.layout.specs.Columns.{new_stripe, has_moved};
ghost use Rattle.records.specs.Conditions.{progress_ok};
ghost use Rattle.journal.specs.Journal.{record_at};
ghost use Rattle.answer.specs.Cases.{of_place};
ghost use Rattle.answer.specs.Numbers.{refusal_number};
ghost use Rattle.growth.specs.Read.{read_refusal, released_by, offset_of, locate, read};

use answer::Refusal;
use counts::addresses::slot_address;
use counts::{kept_count, stripe_count};
use journal::headers::check_header;
use layout::{Layout, Shape};
use lent::check_store;
use lent::reading::{header_in, record_in};
use places::new_data_node;
use records::touched::progress_ok;
use sources::nodes::data_node;
use sources::{new_column, new_stripe};

// Whether there is a block (g, d).
fn block_there(z: Layout, g: usize, d: usize) -> bool
    ensures { result ≡ ltb g (stripes z.shape) && ltb d z.shape.k }
{
    g < stripe_count(z) && d < z.shape.k
}

// Whether the word that block (g, d) touches is as it should be: only a dissolved block touches one, kind 11 of its new stripe.
fn word_ok(z: Layout, journal: &[u32], g: usize, d: usize) -> bool
    requires g_bound { (g < stripes z.shape) × (d < z.shape.k) }
    ensures { result ≡ only_if (leb (kept z.shape) g) (progress_ok z.shape (record_at journal.now (new_stripe z.shape g d)).progress) }
{
    g < kept_count(z) || progress_ok(z, record_in(journal, new_stripe(z, g, d)).progress)
}

// The refusals of locate and read.
fn check_read(
    z: Shape,
    area_bytes: usize,
    journal: &[u32],
    g: usize,
    d: usize,
) -> Result<Layout, Refusal>
    ensures refusal { refusal_number result ≡ read_refusal z area_bytes journal.now g d }
    ensures layout { IfOk result (λ layout. layout.shape ≡ z) }
{
    let layout = check_store(z, area_bytes, journal.len())?;
    check_header(layout, header_in(journal))?;
    if !block_there(layout, g, d) {
        return Err(Refusal::OutOfRange);
    }
    if !word_ok(layout, journal, g, d) {
        return Err(Refusal::DamagedBook);
    }
    Ok(layout)
}

// Whether block (g, d) stands in its new place: it is of a dissolved stripe, and its new stripe is released.
#[tactic(auto, unfolding(layout::specs::Columns::has_moved))]
fn has_moved(z: Layout, journal: &[u32], g: usize, d: usize) -> bool
    requires g_bound { (g < stripes z.shape) × (d < z.shape.k) }
    ensures { result ≡ has_moved z.shape (released_by journal.now) g d }
{
    g >= kept_count(z) && record_in(journal, new_stripe(z, g, d)).is_released()
}

// Where block (g, d) starts in the area.
fn offset_of(z: Layout, journal: &[u32], g: usize, d: usize) -> usize
    requires g_bound { (g < stripes z.shape) × (d < z.shape.k) }
    ensures { (result ≡ offset_of z.shape journal.now g d) × (result + z.shape.b ≤ area_length z.shape) }
{
    if has_moved(z, journal, g, d) {
        let w = new_stripe(z, g, d);
        slot_address(z, new_data_node(z, w, new_column(z, g, d)), w) * z.shape.b
    } else {
        slot_address(z, data_node(z, g, d), g) * z.shape.b
    }
}

// Tells where the block of stripe g, column d, starts in an area of so many bytes.
pub fn locate(
    z: Shape,
    area_bytes: usize,
    journal: &[u32],
    g: usize,
    d: usize,
) -> Result<usize, Refusal>
    ensures { of_place result ≡ locate z area_bytes journal.now g d }
{
    // The refusal has an arm of its own, so that a must-fail edit can put another in its place.
    match check_read(z, area_bytes, journal, g, d) {
        Ok(layout) => Ok(offset_of(layout, journal, g, d)),
        Err(refusal) => Err(refusal),
    }
}

// Hands back the block of stripe g, column d, as a part of the lent area; where locate refuses, the empty part.
pub fn read<'a>(z: Shape, area: &'a [u8], journal: &[u32], g: usize, d: usize) -> &'a [u8]
    ensures { result.now ≡ read z area.now journal.now g d }
{
    match check_read(z, area.len(), journal, g, d) {
        Ok(layout) => {
            let start = offset_of(layout, journal, g, d);
            &area[start..start + z.b]
        }
        Err(_) => &area[0..0],
    }
}
