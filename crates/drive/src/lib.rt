// Document 01's call drive: takes stripes by rising w, computes, sends, delivers and receipts each unreceipted transfer by rising e,
// releases; stops at a further unaccepted transfer when as many as the limit were accepted.
#![tactic(auto)]

mod steps;

ghost use Rattle.std.specs.Prelude.{◌≡◌, ◌+◌, ◌<◌, length, IfOk};
ghost use Rattle.protocol.specs.Drive.{Progress, goes_on, drive_transfer, drive_transfers, drive_stripe};
ghost use Rattle.answer.specs.Cases.{of_drive};
ghost use Rattle.answer.specs.Numbers.{refusal_number};
ghost use Rattle.layout.specs.Counts.{kept, transfers};
ghost use Rattle.growth.specs.Drive.{Store, store_drive, lent_store, DriveOutcome, drive_refusal, driven_store, drive};
ghost use Rattle.drive.specs.Courses.{progress};

use answer::{Drive, Refusal};
use compute::compute;
use counts::{kept_count, transfer_count};
use layout::{Layout, Shape};
use lent::reading::record_in;
use lent::{check_store, check_whole};
use release::release;
use steps::pass_on;

// The limit has stopped a drive that had newly accepted so many transfers.
#[derive(Clone, Copy)]
pub struct Stopped {
    pub accepted: usize,
}

// The refusals of drive.
fn check_drive(
    z: Shape,
    area_bytes: usize,
    journal: &[u32],
    space_bytes: usize,
) -> Result<Layout, Refusal>
    ensures refusal { refusal_number result ≡ drive_refusal z area_bytes journal.now space_bytes }
    ensures layout { IfOk result (λ layout. layout.shape ≡ z) }
{
    let layout = check_store(z, area_bytes, journal.len())?;
    if space_bytes != 32 + z.b {
        return Err(Refusal::Length);
    }
    check_whole(layout, journal)?;
    Ok(layout)
}

// One transfer of a drive that has not stopped: passed over if it is receipted, passed on again if it is accepted; else it is a further
// one, which is passed on and counted, or stops the drive.
fn drive_transfer(
    z: Layout,
    area: &mut [u8],
    journal: &mut [u32],
    space: &mut [u8],
    limit: usize,
    w: usize,
    e: usize,
    accepted: usize,
) -> Result<usize, Stopped>
    requires w_bound { (w < kept z.shape) × (e < transfers z.shape) × (length space.old ≡ 32 + z.shape.b) }
    ensures { ◌≡◌ {A = Progress Store} (progress (lent_store z.shape area.new journal.new space.new) result)
        (drive_transfer (store_drive z.shape) limit w e
        (goes_on (lent_store z.shape area.old journal.old space.old) accepted)) }
{
    let stripe = record_in(journal, w);
    if stripe.is_receipted(e as u32) {
        return Ok(accepted);
    }
    if stripe.is_accepted(e as u32) {
        pass_on(z, area, journal, space, w, e);
        return Ok(accepted);
    }
    if accepted >= limit {
        return Err(Stopped { accepted });
    }
    pass_on(z, area, journal, space, w, e);
    Ok(accepted + 1)
}

// The transfers of stripe w, by rising e, until one stops the drive.
fn drive_transfers(
    z: Layout,
    area: &mut [u8],
    journal: &mut [u32],
    space: &mut [u8],
    limit: usize,
    w: usize,
    accepted: usize,
) -> Result<usize, Stopped>
    requires w_bound { (w < kept z.shape) × (length space.old ≡ 32 + z.shape.b) }
    ensures { ◌≡◌ {A = Progress Store} (progress (lent_store z.shape area.new journal.new space.new) result)
        (drive_transfers (store_drive z.shape) limit w (transfers z.shape)
        (goes_on (lent_store z.shape area.old journal.old space.old) accepted)) }
{
    let mut total = accepted;
    for e in 0..transfer_count(z) {
        total = drive_transfer(z, area, journal, space, limit, w, e, total)?;
    }
    Ok(total)
}

// A stripe: compute, its transfers, release.
fn drive_stripe(
    z: Layout,
    area: &mut [u8],
    journal: &mut [u32],
    space: &mut [u8],
    limit: usize,
    w: usize,
    accepted: usize,
) -> Result<usize, Stopped>
    requires w_bound { (w < kept z.shape) × (length space.old ≡ 32 + z.shape.b) }
    ensures { ◌≡◌ {A = Progress Store} (progress (lent_store z.shape area.new journal.new space.new) result)
        (drive_stripe (store_drive z.shape) limit (transfers z.shape) w
        (goes_on (lent_store z.shape area.old journal.old space.old) accepted)) }
{
    let _ = compute(z.shape, area, journal, w);
    let total = drive_transfers(z, area, journal, space, limit, w, accepted)?;
    let _ = release(z.shape, area, journal, w);
    Ok(total)
}

// The stripes by rising w, until a transfer stops the drive.
fn drive_stripes(
    z: Layout,
    area: &mut [u8],
    journal: &mut [u32],
    space: &mut [u8],
    limit: usize,
) -> Result<usize, Stopped>
    requires space_len { length space.old ≡ 32 + z.shape.b }
    ensures { ◌≡◌ {A = Progress Store} (progress (lent_store z.shape area.new journal.new space.new) result)
        (driven_store z.shape limit (lent_store z.shape area.old journal.old space.old)) }
{
    let mut total = 0;
    for w in 0..kept_count(z) {
        total = drive_stripe(z, area, journal, space, limit, w, total)?;
    }
    Ok(total)
}

// Drives a growth on, over a message space that has room for one message and its receipt; accepts at most `limit` transfers and tells
// how many it accepted.
pub fn drive(
    z: Shape,
    area: &mut [u8],
    journal: &mut [u32],
    limit: usize,
    space: &mut [u8],
) -> Result<Drive, Refusal>
    ensures { ◌≡◌ {A = DriveOutcome}
        (record { answer = of_drive result; area = area.new; journal = journal.new; space = space.new })
        (drive z area.old journal.old space.old limit) }
{
    let layout = check_drive(z, area.len(), journal, space.len())?;
    match drive_stripes(layout, area, journal, space, limit) {
        Ok(accepted) => Ok(Drive::Finished(accepted)),
        Err(stopped) => Ok(Drive::Spent(stopped.accepted)),
    }
}
