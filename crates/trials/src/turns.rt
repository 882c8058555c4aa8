// Turns by chance: one call each, over the link.
use crate::chance::{Chance, mix, sum_of};
use crate::link::{
    keep_message, keep_receipt, message_at, message_size, message_start, receipt_at, write_receipt,
};
use crate::print::Answer;
use answer::{Drive, Refusal, Step};
use counts::check_shape;
use layout::Shape;
use lent::reading::words_in;
use std::io;
use wire::Header;

// The nodes that a message or receipt names.
pub fn receiver_in(m: Header) -> usize {
    (m.route / 4096 % 256) as usize
}

pub fn sender_in(m: Header) -> usize {
    (m.route / 1048576 % 256) as usize
}

// The kept stripes of a shape; none where it is refused.
fn kept_stripes(z: Shape) -> usize {
    check_shape(z).map_or(0, counts::kept_count)
}

// All stripes of a shape; none where it is refused.
pub fn all_stripes(z: Shape) -> usize {
    check_shape(z).map_or(0, counts::stripe_count)
}

// The transfers of one stripe; none where the shape is refused.
fn transfers(z: Shape) -> usize {
    check_shape(z).map_or(0, counts::transfer_count)
}

// Once in eight times a node by chance, else the one that is named.
fn node_for(z: Shape, named: usize, chance: &mut Chance) -> usize {
    if chance.next(8) == 0 {
        chance.next(z.n % 64 + z.s % 64 + 1)
    } else {
        named
    }
}

// The calls of a growth.
#[derive(Clone, Copy)]
enum Call {
    Compute,
    Send,
    Deliver,
    Receipt,
    Release,
    Drive,
    Close,
    Read,
}

impl Call {
    // The call of a number below 16: those that move a growth on have several.
    fn of(number: usize) -> Call {
        match number {
            0..=1 => Call::Compute,
            2..=5 => Call::Send,
            6..=9 => Call::Deliver,
            10..=11 => Call::Receipt,
            12 => Call::Release,
            13 => Call::Drive,
            14 => Call::Close,
            _ => Call::Read,
        }
    }

    // How many numbers its first number is chosen from: a stripe, a place of the link or a limit; 0 for close, which has none.
    fn first_bound(self, z: Shape) -> usize {
        match self {
            Call::Compute => kept_stripes(z) % 65536 + 2,
            Call::Send | Call::Release => kept_stripes(z),
            Call::Deliver | Call::Receipt => 8,
            Call::Drive => 4,
            Call::Close => 0,
            Call::Read => all_stripes(z) % 65536 + 1,
        }
    }

    // Its first number.
    fn first(self, z: Shape, chance: &mut Chance) -> usize {
        match self.first_bound(z) {
            0 => 0,
            bound => chance.next(bound),
        }
    }

    // Its second number: a transfer, a node or a column.
    fn second(self, first: usize, z: Shape, link: &[u8], chance: &mut Chance) -> usize {
        match self {
            Call::Compute | Call::Release | Call::Drive | Call::Close => 0,
            Call::Send => chance.next(transfers(z) % 64 + 1),
            Call::Deliver => {
                node_for(z, receiver_in(words_in(message_at(z, link, first))), chance)
            }
            Call::Receipt => node_for(z, sender_in(words_in(receipt_at(link, first))), chance),
            Call::Read => chance.next(z.k % 64 + 1),
        }
    }
}

// Sends over the link: a message that is sent goes into a place. The answer, with the sum of what was written last. A link that is too
// short for a message is refused.
fn send_over(
    z: Shape,
    area: &[u8],
    journal: &[u32],
    link: &mut [u8],
    w: usize,
    e: usize,
    chance: &mut Chance,
) -> u64 {
    let start = message_start(z, 8);
    let end = start + message_size(z);
    let result = if end <= link.len() {
        send::send(z, area, journal, w, e, &mut link[start..end])
    } else {
        Err(Refusal::Length)
    };
    if result == Ok(Step::Done) {
        keep_message(z, link, chance);
    }
    mix(
        Answer::from(result).number(),
        sum_of(message_at(z, link, 8)),
    )
}

// Delivers from the link: a receipt for a message that is accepted goes into a place. The answer, with the sum of what was written last.
fn deliver_over(
    z: Shape,
    area: &mut [u8],
    journal: &mut [u32],
    link: &mut [u8],
    place: usize,
    node: usize,
    chance: &mut Chance,
) -> u64 {
    let mut receipt = [0; 16];
    let message = message_at(z, link, place);
    let result = deliver::deliver(z, area, journal, node, message, &mut receipt);
    write_receipt(link, &receipt);
    if result.is_ok() {
        keep_receipt(link, chance);
    }
    mix(Answer::from(result).number(), sum_of(receipt_at(link, 8)))
}

// A drive with a space of its own, for blocks of up to 3 bytes.
pub fn drive_store(
    z: Shape,
    area: &mut [u8],
    journal: &mut [u32],
    limit: usize,
) -> Result<Drive, Refusal> {
    let mut space = [0; 35];
    drive::drive(z, area, journal, limit, &mut space[..32 + z.b % 4])
}

// Where a block stands, with the sum of its bytes.
fn read_number(z: Shape, area: &[u8], journal: &[u32], g: usize, d: usize) -> u64 {
    let block = sum_of(read::read(z, area, journal, g, d));
    match read::locate(z, area.len(), journal, g, d) {
        Ok(offset) => mix(offset as u64 % 65536 * 256, block),
        Err(refusal) => mix(refusal.number() as u64, block),
    }
}

// One turn: a call that is chosen by chance, with its numbers; its answer as a number.
fn turn(
    z: Shape,
    area: &mut [u8],
    journal: &mut [u32],
    link: &mut [u8],
    chance: &mut Chance,
) -> u64 {
    let call = Call::of(chance.next(16));
    let first = call.first(z, chance);
    let second = call.second(first, z, link, chance);
    match call {
        Call::Compute => Answer::from(compute::compute(z, area, journal, first)).number(),
        Call::Send => send_over(z, area, journal, link, first, second, chance),
        Call::Deliver => deliver_over(z, area, journal, link, first, second, chance),
        Call::Receipt => {
            let receipt = receipt_at(link, first);
            Answer::from(receipt::receipt(z, journal, second, receipt)).number()
        }
        Call::Release => Answer::from(release::release(z, area, journal, first)).number(),
        Call::Drive => Answer::from(drive_store(z, area, journal, first)).number(),
        Call::Close => Answer::from(close::close(z, area, journal)).number(),
        Call::Read => read_number(z, area, journal, first, second),
    }
}

// Fifty turns; prints the sum of their answers.
pub fn some_turns(
    rt: &impl Print,
    z: Shape,
    area: &mut [u8],
    journal: &mut [u32],
    link: &mut [u8],
    chance: &mut Chance,
) -> io::Result<()> {
    let mut sum = 0;
    for _ in 0..50 {
        sum = mix(sum, turn(z, area, journal, link, chance));
    }
    println!(rt; "answers {sum}")
}
