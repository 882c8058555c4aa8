// A link that loses, repeats and shuffles, in one buffer: eight places for receipts and the receipt that was written last, then eight
// places for messages and the message that was sent last. What is written goes into a place by chance, and what was there is lost; what is
// handed on comes from a place by chance, and stays there.
ghost use Rattle.std.specs.Prelude.{◌≤◌};

use crate::chance::{Chance, mix, sum_of};
use layout::Shape;

// How long a message is.
pub fn message_size(z: Shape) -> usize
    ensures { result ≤ 8207 }
{
    16 + z.b % 8192
}

// Where a message starts: place 8 has the one that was sent last.
pub fn message_start(z: Shape, place: usize) -> usize
    ensures { result ≤ 65800 }
{
    144 + place % 9 * message_size(z)
}

// A part of the bytes; none where it does not fit.
fn part(bytes: &[u8], start: usize, size: usize) -> &[u8] {
    if start <= bytes.len() && size <= bytes.len() - start {
        &bytes[start..start + size]
    } else {
        &[]
    }
}

// The message in a place.
pub fn message_at(z: Shape, link: &[u8], place: usize) -> &[u8] {
    part(link, message_start(z, place), message_size(z))
}

// Place 8 has the receipt that was written last.
pub fn receipt_at(link: &[u8], place: usize) -> &[u8] {
    part(link, place % 9 * 16, 16)
}

// Writes a receipt to place 8, if the link is long enough.
pub fn write_receipt(link: &mut [u8], receipt: &[u8; 16]) {
    if link.len() >= 144 {
        link[128..144].copy_from_slice(receipt);
    }
}

// Copies bytes to a place before them, if they fit.
fn copy_back(link: &mut [u8], to: usize, from: usize, size: usize) {
    if to <= from && size <= from - to && from <= link.len() && size <= link.len() - from {
        area::copy_within(link, to, from, size);
    }
}

// Keeps the message that was sent last in a place by chance.
pub fn keep_message(z: Shape, link: &mut [u8], chance: &mut Chance) {
    let place = chance.next(8) % 8;
    copy_back(
        link,
        message_start(z, place),
        message_start(z, 8),
        message_size(z),
    );
}

// Keeps the receipt that was written last in a place by chance.
pub fn keep_receipt(link: &mut [u8], chance: &mut Chance) {
    let place = chance.next(8) % 8;
    copy_back(link, place * 16, 128, 16);
}

// The sum over all places.
pub fn sum_link(z: Shape, link: &[u8]) -> u64 {
    let messages = part(link, 144, 8 * message_size(z));
    mix(sum_of(messages), sum_of(part(link, 0, 128)))
}
