// The calls of document 01 for C: each function hands on to the call and answers with its answer as one number. include/taldrimsu.h
// declares them. A slice is a pointer and its length in elements.
#![tactic(auto)]

ghost use Rattle.std.specs.Prelude.{◌≡◌, [], ◌∷◌, length};
ghost use Rattle.journal.specs.Status.{status};
ghost use Rattle.growth.specs.Encode.{encode};
ghost use Rattle.growth.specs.Begin.{begin};
ghost use Rattle.growth.specs.Compute.{compute};
ghost use Rattle.growth.specs.Send.{send};
ghost use Rattle.growth.specs.Deliver.{deliver};
ghost use Rattle.growth.specs.Receipt as Receipt;
ghost use Rattle.growth.specs.Release.{release};
ghost use Rattle.growth.specs.Close.{close};
ghost use Rattle.growth.specs.Read.{locate};
ghost use Rattle.growth.specs.Drive.{drive};
ghost use Rattle.numbering.specs.Numbering.{coded_place, coded_status};
ghost use Rattle.capi.specs.Calls.{shape, Left, left_by_encode, left_by_step, left_by_send, left_by_deliver, left_by_receipt};
ghost use Rattle.capi.specs.Calls.{left_by_drive};
ghost use Rattle.capi.specs.Calls.{LeftByRebuild};

use layout::Shape;
use numbering::{code_drive, code_place, code_rebuild, code_status, code_step};

#[unsafe(no_mangle)]
pub extern "C" fn taldrimsu_encode(n: usize, k: usize, s: usize, b: usize, cells: &mut [u8]) -> u64
    ensures { ◌≡◌ {A = Left} (record { answer = result; buffers = cells.new ∷ [] })
        (left_by_encode (encode (shape n k s b) cells.old)) }
{
    code_step(encode::encode(Shape { n, k, s, b }, cells))
}

#[unsafe(no_mangle)]
pub extern "C" fn taldrimsu_begin(
    n: usize,
    k: usize,
    s: usize,
    b: usize,
    cells: &mut [u8],
    book: &mut [u32],
    number: usize,
) -> u64
    ensures { ◌≡◌ {A = Left} (record { answer = result; buffers = cells.new ∷ book.new ∷ [] })
        (left_by_step (begin (shape n k s b) cells.old book.old number)) }
{
    code_step(begin::begin(Shape { n, k, s, b }, cells, book, number))
}

#[unsafe(no_mangle)]
pub extern "C" fn taldrimsu_compute(
    n: usize,
    k: usize,
    s: usize,
    b: usize,
    cells: &mut [u8],
    book: &mut [u32],
    w: usize,
) -> u64
    ensures { ◌≡◌ {A = Left} (record { answer = result; buffers = cells.new ∷ book.new ∷ [] })
        (left_by_step (compute (shape n k s b) cells.old book.old w)) }
{
    code_step(compute::compute(Shape { n, k, s, b }, cells, book, w))
}

#[unsafe(no_mangle)]
pub extern "C" fn taldrimsu_send(
    n: usize,
    k: usize,
    s: usize,
    b: usize,
    cells: &[u8],
    book: &[u32],
    w: usize,
    e: usize,
    message: &mut [u8],
) -> u64
    ensures { ◌≡◌ {A = Left} (record { answer = result; buffers = message.new ∷ [] })
        (left_by_send (send (shape n k s b) cells.now book.now w e message.old)) }
{
    code_step(send::send(Shape { n, k, s, b }, cells, book, w, e, message))
}

#[unsafe(no_mangle)]
pub extern "C" fn taldrimsu_deliver(
    n: usize,
    k: usize,
    s: usize,
    b: usize,
    cells: &mut [u8],
    book: &mut [u32],
    node: usize,
    message: &[u8],
    receipt: &mut [u8],
) -> u64
    ensures { ◌≡◌ {A = Left} (record { answer = result; buffers = cells.new ∷ book.new ∷ receipt.new ∷ [] })
        (left_by_deliver
        (deliver (shape n k s b) cells.old book.old node message.now receipt.old)) }
{
    code_step(deliver::deliver(Shape { n, k, s, b }, cells, book, node, message, receipt))
}

#[unsafe(no_mangle)]
pub extern "C" fn taldrimsu_receipt(
    n: usize,
    k: usize,
    s: usize,
    b: usize,
    book: &mut [u32],
    node: usize,
    receipt: &[u8],
) -> u64
    ensures { ◌≡◌ {A = Left} (record { answer = result; buffers = book.new ∷ [] })
        (left_by_receipt (Receipt.receipt (shape n k s b) book.old node receipt.now)) }
{
    code_step(receipt::receipt(Shape { n, k, s, b }, book, node, receipt))
}

#[unsafe(no_mangle)]
pub extern "C" fn taldrimsu_release(
    n: usize,
    k: usize,
    s: usize,
    b: usize,
    cells: &mut [u8],
    book: &mut [u32],
    w: usize,
) -> u64
    ensures { ◌≡◌ {A = Left} (record { answer = result; buffers = cells.new ∷ book.new ∷ [] })
        (left_by_step (release (shape n k s b) cells.old book.old w)) }
{
    code_step(release::release(Shape { n, k, s, b }, cells, book, w))
}

#[unsafe(no_mangle)]
pub extern "C" fn taldrimsu_close(
    n: usize,
    k: usize,
    s: usize,
    b: usize,
    cells: &mut [u8],
    book: &mut [u32],
) -> u64
    ensures { ◌≡◌ {A = Left} (record { answer = result; buffers = cells.new ∷ book.new ∷ [] })
        (left_by_step (close (shape n k s b) cells.old book.old)) }
{
    code_step(close::close(Shape { n, k, s, b }, cells, book))
}

#[unsafe(no_mangle)]
pub extern "C" fn taldrimsu_status(n: usize, k: usize, s: usize, b: usize, book: &[u32]) -> u64
    ensures { result ≡ coded_status (status (shape n k s b) book.now) }
{
    code_status(journal::status(Shape { n, k, s, b }, book))
}

// The offset of the block rather than a pointer to it: C and Rust make the part of the cells themselves.
#[unsafe(no_mangle)]
pub extern "C" fn taldrimsu_read(
    n: usize,
    k: usize,
    s: usize,
    b: usize,
    cells: &[u8],
    book: &[u32],
    g: usize,
    d: usize,
) -> u64
    ensures { result ≡ coded_place (locate (shape n k s b) (length cells.now) book.now g d) }
{
    code_place(read::locate(Shape { n, k, s, b }, cells.len(), book, g, d))
}

#[unsafe(no_mangle)]
pub extern "C" fn taldrimsu_drive(
    n: usize,
    k: usize,
    s: usize,
    b: usize,
    cells: &mut [u8],
    book: &mut [u32],
    limit: usize,
    space: &mut [u8],
) -> u64
    ensures { ◌≡◌ {A = Left} (record { answer = result; buffers = cells.new ∷ book.new ∷ space.new ∷ [] })
        (left_by_drive (drive (shape n k s b) cells.old book.old space.old limit)) }
{
    code_drive(drive::drive(Shape { n, k, s, b }, cells, book, limit, space))
}

#[unsafe(no_mangle)]
pub extern "C" fn taldrimsu_rebuild(
    n: usize,
    k: usize,
    b: usize,
    stripe: &mut [u8],
    losses: &[u8],
) -> u64
    ensures { LeftByRebuild n k b losses.now stripe.old result stripe.new }
{
    code_rebuild(rebuild::rebuild(n, k, b, stripe, losses))
}
