// Document 01's examples of loss and damage, run: a true stripe of (6,4) with blocks of two bytes under every loss of one, two
// and three blocks, with all lost, and with one byte wrong; the stripe of E7; and rebuild's other refusals.
#![tactic(auto)]

ghost use Rattle.std.specs.Prelude.{◌≡◌, ◌<◌, length};

use answer::Refusal;
use std::{fmt, io};

// What rebuild answers.
#[derive(Clone, Copy)]
struct Answer(Result<usize, Refusal>);

// How many blocks were rebuilt, or the number of the refusal.
impl fmt::Display for Answer {
    fn fmt<W: fmt::Write>(&self, f: &mut fmt::Formatter<W>) -> fmt::Result {
        match self.0 {
            Ok(lost) => write!(f, "rebuilt {lost}"),
            Err(refusal) => write!(f, "refused {}", refusal.number()),
        }
    }
}

// Rebuilds a stripe of (n,k) with blocks of b bytes.
fn rebuild(n: usize, k: usize, b: usize, stripe: &mut [u8], losses: &[u8]) -> Answer {
    Answer(rebuild::rebuild(n, k, b, stripe, losses))
}

// Prints whether the stripe at exit is the true one, and whether it is as it was.
fn compare(rt: &impl Print, stripe: &[u8], truth: &[u8], lent: &[u8]) -> io::Result<()> {
    if stripe == truth {
        print!(rt; ", the true stripe")?;
    }
    if stripe == lent {
        print!(rt; ", as lent")?;
    }
    println!(rt)
}

// Encodes the two rows of a stripe of (6,4) over blocks of two bytes.
fn encode(stripe: &mut [u8])
    requires { length stripe.old ≡ 12 }
{
    let at = combine::offsets::consecutive(4, 2);
    for j in 0..2 {
        code::write_row(stripe, 8 + 2 * j, &at, 4, j, code::multiplier(j, 4), 2);
    }
}

// A stripe of (6,4): four columns and their rows.
fn true_stripe() -> [u8; 12] {
    let mut stripe = [0x31, 0x41, 0x59, 0x26, 0x53, 0x58, 0x97, 0x93, 0, 0, 0, 0];
    encode(&mut stripe);
    stripe
}

// Zeroes block p and marks it as lost.
fn lose(stripe: &mut [u8; 12], losses: &mut [u8; 6], p: usize)
    requires { p < 6 }
{
    area::zero(stripe, 2 * p, 2);
    losses[p] = 1;
}

// Rebuilds the true stripe without blocks p, q and r, of which some may be the same.
fn without(rt: &impl Print, p: usize, q: usize, r: usize) -> io::Result<()>
    requires { (p < 6) × (q < 6) × (r < 6) }
{
    let truth = true_stripe();
    let mut stripe = truth;
    let mut losses = [0; 6];
    lose(&mut stripe, &mut losses, p);
    lose(&mut stripe, &mut losses, q);
    lose(&mut stripe, &mut losses, r);
    let lent = stripe;
    print!(rt; "{}", rebuild(6, 4, 2, &mut stripe, &losses))?;
    compare(rt, &stripe, &truth, &lent)
}

// Every loss of block p and a later one.
fn two_lost(rt: &impl Print, p: usize) -> io::Result<()>
    requires { p < 6 }
{
    for q in p + 1..6 {
        print!(rt; "{p} {q} lost: ")?;
        without(rt, p, q, q)?;
    }
    Ok(())
}

// Every loss of blocks p, q and a later one: one more than there are rows.
fn three_lost(rt: &impl Print, p: usize, q: usize) -> io::Result<()>
    requires { (p < 6) × (q < 6) }
{
    for r in q + 1..6 {
        print!(rt; "{p} {q} {r} lost: ")?;
        without(rt, p, q, r)?;
    }
    Ok(())
}

// Every loss of block p alone, with one other, and with two others.
fn lost_from(rt: &impl Print, p: usize) -> io::Result<()>
    requires { p < 6 }
{
    print!(rt; "{p} lost: ")?;
    without(rt, p, p, p)?;
    two_lost(rt, p)?;
    for q in p + 1..6 {
        three_lost(rt, p, q)?;
    }
    Ok(())
}

// Every loss of one block, of two, and of three.
fn every_loss(rt: &impl Print) -> io::Result<()> {
    for p in 0..6 {
        lost_from(rt, p)?;
    }
    Ok(())
}

// All blocks lost.
fn all_lost(rt: &impl Print) -> io::Result<()> {
    let truth = true_stripe();
    let lent = [0; 12];
    let mut stripe = lent;
    print!(rt; "all lost: {}", rebuild(6, 4, 2, &mut stripe, &[1; 6]))?;
    compare(rt, &stripe, &truth, &lent)
}

// None lost, and the byte at i changed.
fn one_byte_wrong(rt: &impl Print, i: usize) -> io::Result<()>
    requires { i < 12 }
{
    let truth = true_stripe();
    let mut stripe = truth;
    stripe[i] ^= 1;
    let lent = stripe;
    print!(rt; "{}", rebuild(6, 4, 2, &mut stripe, &[0; 6]))?;
    compare(rt, &stripe, &truth, &lent)
}

// None lost: the true stripe, and with each of its bytes wrong.
fn none_lost(rt: &impl Print) -> io::Result<()> {
    let truth = true_stripe();
    let mut stripe = truth;
    print!(rt; "none lost: {}", rebuild(6, 4, 2, &mut stripe, &[0; 6]))?;
    compare(rt, &stripe, &truth, &truth)?;
    for i in 0..12 {
        print!(rt; "none lost, byte {i} wrong: ")?;
        one_byte_wrong(rt, i)?;
    }
    Ok(())
}

// The stripe of E7 without columns 0, 1 and 3: its rows are zero, as those of zeros are. With row 0 = 01 no data agree.
fn open_losses(rt: &impl Print) -> io::Result<()> {
    let losses = [1, 1, 0, 1, 0, 0, 0];
    let mut stripe = [6, 7, 0, 1, 0, 0, 0];
    println!(rt;
        "06 07 00 01 of (7,4) without 0, 1, 3: {}",
        rebuild(7, 4, 1, &mut stripe, &losses)
    )?;
    stripe[4] = 1;
    println!(rt;
        "the same with row 0 = 01: {}",
        rebuild(7, 4, 1, &mut stripe, &losses)
    )
}

// What is refused before the blocks are looked at.
fn refusals(rt: &impl Print) -> io::Result<()> {
    let mut stripe = true_stripe();
    println!(rt; "n = 21: {}", rebuild(21, 20, 2, &mut stripe, &[0; 6]))?;
    println!(rt; "r = 5: {}", rebuild(6, 1, 2, &mut stripe, &[0; 6]))?;
    println!(rt;
        "a stripe of 12 bytes for blocks of 3: {}",
        rebuild(6, 4, 3, &mut stripe, &[0; 6])
    )?;
    println!(rt;
        "a loss byte of 2: {}",
        rebuild(6, 4, 2, &mut stripe, &[0, 0, 2, 0, 0, 0])
    )
}

fn main(rt: HostRuntime) -> io::Result<()> {
    every_loss(&rt)?;
    all_lost(&rt)?;
    none_lost(&rt)?;
    open_losses(&rt)?;
    refusals(&rt)
}
