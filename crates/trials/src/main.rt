// Whole growths, run: document 01's examples of the largest shape and of drive, and growths of two small stores over a link that loses,
// repeats and shuffles, with drives between, ended by a drive and close. What it prints is compared with the output of `model` beside it,
// a model of the calls written from document 01 and the description of the design, without the definitions or the code. So the two can
// agree on a misreading that the design has.
#![tactic(auto)]

mod chance;
mod link;
mod print;
mod turns;

use chance::{Chance, mix, sum_of};
use layout::Shape;
use print::{Answer, print_status, print_sums};
use std::io;
use turns::some_turns;

// Encodes and begins a store.
fn encode_and_begin(
    rt: &impl Print,
    text: &str,
    z: Shape,
    area: &mut [u8],
    journal: &mut [u32],
    number: usize,
) -> io::Result<()> {
    println!(rt; "{text}encode {}", Answer::from(encode::encode(z, area)))?;
    println!(rt;
        "begin {}",
        Answer::from(begin::begin(z, area, journal, number))
    )
}

// Closes a store, and asks for its status.
fn close_store(rt: &impl Print, z: Shape, area: &mut [u8], journal: &mut [u32]) -> io::Result<()> {
    println!(rt; "close {}", Answer::from(close::close(z, area, journal)))?;
    print_status(rt, z, journal)
}

// ---- the largest shape: n + s = 20 is accepted, 21 is refused

fn begin_with(
    rt: &impl Print,
    text: &str,
    s: usize,
    area: &mut [u8],
    journal: &mut [u32],
) -> io::Result<()> {
    let z = Shape {
        n: 2,
        k: 1,
        s,
        b: 1,
    };
    encode_and_begin(rt, text, z, area, journal, 1)?;
    print_sums(rt, area, journal)
}

fn largest_shape(rt: &impl Print) -> io::Result<()> {
    let mut area = [0; 2240];
    let mut journal = [0; 84];
    Chance::new(1).fill(&mut area);
    begin_with(rt, "n + s = 20: ", 18, &mut area, &mut journal)?;
    begin_with(rt, "n + s = 21: ", 19, &mut area, &mut journal)
}

// ---- drive with limit 0 on a fresh journal, and on one with every transfer receipted

const SMALL: Shape = Shape {
    n: 3,
    k: 1,
    s: 1,
    b: 2,
};

fn begin_small(rt: &impl Print, area: &mut [u8], journal: &mut [u32]) -> io::Result<()> {
    Chance::new(2).fill(area);
    encode_and_begin(rt, "", SMALL, area, journal, 5)
}

// A drive of the small store; the sum of its space.
fn drive_small(
    rt: &impl Print,
    text: &str,
    area: &mut [u8],
    journal: &mut [u32],
    limit: usize,
) -> io::Result<u64> {
    let mut space = [7; 34];
    let result = drive::drive(SMALL, area, journal, limit, &mut space);
    println!(rt; "{text}drive {limit} {}", Answer::from(result))?;
    Ok(sum_of(&space))
}

fn print_first_stripe(rt: &impl Print, journal: &[u32]) -> io::Result<()> {
    let stripe = lent::reading::record_in(journal, 0);
    println!(rt; "stripe 0 {}", stripe.accepted)?;
    println!(rt; "and {}", stripe.progress)
}

fn print_space(rt: &impl Print, sum: u64, area: &[u8], journal: &[u32]) -> io::Result<()> {
    println!(rt; "space {sum}")?;
    print_sums(rt, area, journal)
}

fn drive_fresh(rt: &impl Print) -> io::Result<()> {
    let mut area = [0; 168];
    let mut journal = [0; 28];
    begin_small(rt, &mut area, &mut journal)?;
    let fresh_space = drive_small(rt, "fresh journal: ", &mut area, &mut journal, 0)?;
    print_status(rt, SMALL, &journal)?;
    print_first_stripe(rt, &journal)?;
    print_space(rt, fresh_space, &area, &journal)?;
    drive_small(rt, "", &mut area, &mut journal, 23)?;
    print_status(rt, SMALL, &journal)?;
    let last_space = drive_small(rt, "", &mut area, &mut journal, 1)?;
    print_status(rt, SMALL, &journal)?;
    print_space(rt, last_space, &area, &journal)
}

// Sends transfer e of kept stripe w, delivers it where it says, and hands the receipt back to the sender that it names. What the calls
// answer shows in the sums that are printed.
fn pass(area: &mut [u8], journal: &mut [u32], w: usize, e: usize) {
    let mut message = [0; 18];
    let mut receipt = [0; 16];
    let _ = send::send(SMALL, area, journal, w, e, &mut message);
    let m = lent::reading::words_in(&message);
    let receiver = turns::receiver_in(m);
    let _ = deliver::deliver(SMALL, area, journal, receiver, &message, &mut receipt);
    let _ = receipt::receipt(SMALL, journal, turns::sender_in(m), &receipt);
}

// Every transfer sent, delivered and receipted, nothing released.
fn pass_all(area: &mut [u8], journal: &mut [u32]) {
    for i in 0..24 {
        let _ = compute::compute(SMALL, area, journal, i / 2);
        pass(area, journal, i / 2, i % 2);
    }
}

fn drive_receipted(rt: &impl Print) -> io::Result<()> {
    let mut area = [0; 168];
    let mut journal = [0; 28];
    begin_small(rt, &mut area, &mut journal)?;
    pass_all(&mut area, &mut journal);
    print_sums(rt, &area, &journal)?;
    let text = "every transfer receipted: ";
    let space = drive_small(rt, text, &mut area, &mut journal, 0)?;
    print_space(rt, space, &area, &journal)?;
    close_store(rt, SMALL, &mut area, &mut journal)?;
    print_sums(rt, &area, &journal)
}

// ---- whole growths

// The sum of all old blocks, read one after the other.
fn sum_blocks(z: Shape, area: &[u8], journal: &[u32]) -> u64 {
    let mut sum = 0;
    for g in 0..turns::all_stripes(z) {
        for d in 0..z.k {
            sum = mix(sum, sum_of(read::read(z, area, journal, g, d)));
        }
    }
    sum
}

fn print_blocks(rt: &impl Print, z: Shape, area: &[u8], journal: &[u32]) -> io::Result<()> {
    println!(rt; "blocks {}", sum_blocks(z, area, journal))?;
    print_sums(rt, area, journal)
}

fn print_round(
    rt: &impl Print,
    z: Shape,
    area: &[u8],
    journal: &[u32],
    link: &[u8],
) -> io::Result<()> {
    println!(rt; "link {}", link::sum_link(z, link))?;
    println!(rt; "blocks {}", sum_blocks(z, area, journal))?;
    print_status(rt, z, journal)?;
    print_sums(rt, area, journal)
}

// A drive to the end, and close.
fn finish(rt: &impl Print, z: Shape, area: &mut [u8], journal: &mut [u32]) -> io::Result<()> {
    let result = turns::drive_store(z, area, journal, 100000);
    println!(rt; "drive 100000 {}", Answer::from(result))?;
    print_sums(rt, area, journal)?;
    close_store(rt, z, area, journal)?;
    print_blocks(rt, z, area, journal)
}

// A store with blocks by chance, encoded and begun. Twelve rounds of fifty turns, after which the growth is not over; the end; and fifty
// turns on the store that is closed.
fn grow(rt: &impl Print, z: Shape, area: &mut [u8], journal: &mut [u32]) -> io::Result<()> {
    let mut link = [0; 315];
    let mut chance = Chance::new(3);
    chance.fill(area);
    encode_and_begin(rt, "", z, area, journal, 77)?;
    print_blocks(rt, z, area, journal)?;
    for _ in 0..12 {
        some_turns(rt, z, area, journal, &mut link, &mut chance)?;
        print_round(rt, z, area, journal, &link)?;
    }
    finish(rt, z, area, journal)?;
    some_turns(rt, z, area, journal, &mut link, &mut chance)?;
    print_sums(rt, area, journal)
}

// Straight and swapped stripes: (4,2,1), blocks of 3 bytes.
fn grow_mixed(rt: &impl Print) -> io::Result<()> {
    println!(rt; "(4,2,1), blocks of 3 bytes")?;
    let z = Shape {
        n: 4,
        k: 2,
        s: 1,
        b: 3,
    };
    grow(rt, z, &mut [0; 840], &mut [0; 84])
}

// Swapped stripes alone: (4,1,2), blocks of 2 bytes.
fn grow_swapped(rt: &impl Print) -> io::Result<()> {
    println!(rt; "(4,1,2), blocks of 2 bytes")?;
    let z = Shape {
        n: 4,
        k: 1,
        s: 2,
        b: 2,
    };
    grow(rt, z, &mut [0; 672], &mut [0; 52])
}

fn main(rt: HostRuntime) -> io::Result<()> {
    largest_shape(&rt)?;
    drive_fresh(&rt)?;
    drive_receipted(&rt)?;
    grow_mixed(&rt)?;
    grow_swapped(&rt)
}
