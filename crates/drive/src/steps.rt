// One transfer sent, delivered and receipted. The message is the first 16 + B bytes of the space, its receipt the last 16. The message's
// four words are read once; the receipt's are made from them, and read only if none was written.
ghost use Rattle.std.specs.Prelude.{◌≡◌, ◌+◌, ◌<◌, length, drop};
ghost use Rattle.layout.specs.Counts.{kept, transfers};
ghost use Rattle.layout.specs.Transfers.{sender};
ghost use Rattle.wire.specs.Headers.{header_at};
ghost use Rattle.growth.specs.Send.{message_length};
ghost use Rattle.growth.specs.Receipt.{receipt};
ghost use Rattle.growth.specs.Drive.{Store, lent_store, send_on, deliver_on, pass_on};

use deliver::accept;
use layout::Layout;
use lent::reading::words_in;
use places::transfers::{receiver_of, sender_of};
use receipt::take_receipt;
use send::send;
use wire::{Header, receipt_of};

fn send_on(z: Layout, area: &[u8], journal: &[u32], space: &mut [u8], w: usize, e: usize)
    requires space_len { length space.old ≡ 32 + z.shape.b }
    ensures { ◌≡◌ {A = Store} (lent_store z.shape area.now journal.now space.new)
        (send_on z.shape w e (lent_store z.shape area.now journal.now space.old)) }
{
    let cut = 16 + z.shape.b;
    let _ = send(z.shape, area, journal, w, e, &mut space[..cut]);
}

// The message, at its receiver. A receipt is written wherever deliver would write it. Answers the four words of what then stands in the
// receipt's place.
fn deliver_on(
    z: Layout,
    area: &mut [u8],
    journal: &mut [u32],
    space: &mut [u8],
    w: usize,
    e: usize,
) -> Header
    requires w_bound { (w < kept z.shape) × (e < transfers z.shape) × (length space.old ≡ 32 + z.shape.b) }
    ensures { (◌≡◌ {A = Store} (lent_store z.shape area.new journal.new space.new)
        (deliver_on z.shape w e (lent_store z.shape area.old journal.old space.old)))
        × (result ≡ header_at (drop (message_length z.shape) space.new) 0) }
{
    let cut = 16 + z.shape.b;
    let node = receiver_of(z, w, e);
    let m = words_in(&space[..cut]);
    match accept(z.shape, area, journal, node, m, &space[..cut], 16) {
        Ok(_) => {
            let words = receipt_of(m);
            wire::write_header(space, cut, words);
            words
        }
        Err(_) => words_in(&space[cut..]),
    }
}

// Its receipt, with the words m, at its sender.
fn receipt_on(z: Layout, journal: &mut [u32], space: &[u8], m: Header, w: usize)
    requires space_len { (length space.now ≡ 32 + z.shape.b) × (m ≡ header_at (drop (message_length z.shape) space.now) 0) }
    ensures { journal.new ≡ (receipt z.shape journal.old (sender z.shape w)
        (drop (message_length z.shape) space.now)).journal }
{
    let cut = 16 + z.shape.b;
    let _ = take_receipt(z.shape, journal, sender_of(z, w), m, &space[cut..]);
}

pub fn pass_on(
    z: Layout,
    area: &mut [u8],
    journal: &mut [u32],
    space: &mut [u8],
    w: usize,
    e: usize,
)
    requires w_bound { (w < kept z.shape) × (e < transfers z.shape) × (length space.old ≡ 32 + z.shape.b) }
    ensures { ◌≡◌ {A = Store} (lent_store z.shape area.new journal.new space.new)
        (pass_on z.shape w e (lent_store z.shape area.old journal.old space.old)) }
{
    send_on(z, area, journal, space, w, e);
    let m = deliver_on(z, area, journal, space, w, e);
    receipt_on(z, journal, space, m, w);
}
