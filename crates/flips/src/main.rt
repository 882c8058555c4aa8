// Status asked of journals of a small shape, (3,1,1) with blocks of 4 bytes: five good ones, each damaged in one bit at every
// place, and called with other shapes and lengths. What it prints is compared with the output of `model` beside it, a model of
// status written from document 01 alone.
#![tactic(auto)]

ghost use Rattle.std.specs.Prelude.{◌≡◌, ◌<◌, length};
ghost use Rattle.layout.specs.Counts.{kept};

use answer::Refusal;
use journal::fresh::{fresh_record, write_fresh};
use journal::headers::{count_word, state_word};
use journal::states::State;
use journal::stripes::write_record;
use journal::{GrowthStatus, status};
use layout::{Layout, Shape};
use records::StripeRecord;
use std::{fmt, io};

// The shape: 12 kept stripes of 2 transfers, and so 28 words.
#[tactic(auto, unfolding(layout::specs::Counts::kept))]
fn small_layout() -> Layout
    ensures { kept result.shape ≡ 12 }
{
    Layout {
        shape: Shape {
            n: 3,
            k: 1,
            s: 1,
            b: 4,
        },
    }
}

// ---- the journals

// The journals: fresh, in the middle of the growth, all released, the same and closed, all accepted.
#[derive(Clone, Copy)]
enum Journal {
    Fresh,
    Middle,
    Released,
    Closed,
    Accepted,
}

const JOURNALS: [Journal; 5] = [
    Journal::Fresh,
    Journal::Middle,
    Journal::Released,
    Journal::Closed,
    Journal::Accepted,
];

// The name that a line begins with.
impl fmt::Display for Journal {
    fn fmt<W: fmt::Write>(&self, f: &mut fmt::Formatter<W>) -> fmt::Result {
        f.write_str(match self {
            Journal::Fresh => "fresh",
            Journal::Middle => "middle",
            Journal::Released => "released",
            Journal::Closed => "closed",
            Journal::Accepted => "accepted",
        })
    }
}

// How far a stripe has come.
#[derive(Clone, Copy)]
enum Stage {
    Fresh,
    Computed,
    OneAccepted,
    Accepted,
    OneReceipted,
    Released,
}

// The record of a stripe that has come so far.
fn record_at(stage: Stage) -> StripeRecord {
    let fresh = fresh_record();
    let computed = fresh.compute();
    let accepted = computed.accept(1).accept(0);
    let receipted = accepted.receipt(0);
    match stage {
        Stage::Fresh => fresh,
        Stage::Computed => computed,
        Stage::OneAccepted => computed.accept(1),
        Stage::Accepted => accepted,
        Stage::OneReceipted => receipted,
        Stage::Released => receipted.receipt(1).release(),
    }
}

// How far stripe w has come in the journal.
fn stage_of(journal: Journal, w: usize) -> Stage {
    match (journal, w) {
        (Journal::Middle, 0) => Stage::Released,
        (Journal::Middle, 1) => Stage::OneReceipted,
        (Journal::Middle, 2) => Stage::OneAccepted,
        (Journal::Middle, 3) => Stage::Computed,
        (Journal::Fresh | Journal::Middle, _) => Stage::Fresh,
        (Journal::Released | Journal::Closed, _) => Stage::Released,
        (Journal::Accepted, _) => Stage::Accepted,
    }
}

// Makes the count that of all set bits of the words of kind 10.
fn recount(words: &mut [u32; 28]) {
    let mut marks = 0;
    for w in 0..12 {
        marks += (words[4 + 2 * w] % 268435456).count_ones();
    }
    words[3] = count_word(marks as usize);
}

// The words of the journal.
#[tactic(auto, unfolding(journal::specs::Journal::journal_length))]
fn make(journal: Journal) -> [u32; 28] {
    let z = small_layout();
    let mut words = [0; 28];
    write_fresh(&mut words, z, 77);
    for w in 0..12 {
        write_record(&mut words, w, record_at(stage_of(journal, w)));
    }
    recount(&mut words);
    if let Journal::Closed = journal {
        words[0] = state_word(State::Closed, z);
    }
    words
}

// ---- what status answers

// An answer as it is printed: state and count with a stroke between them, or the number of the refusal.
#[derive(Clone, Copy)]
struct Answer(Result<GrowthStatus, Refusal>);

impl fmt::Display for Answer {
    fn fmt<W: fmt::Write>(&self, f: &mut fmt::Formatter<W>) -> fmt::Result {
        match self.0 {
            Ok(GrowthStatus { state, count }) => write!(f, "{}/{count}", state.number()),
            Err(refusal) => write!(f, "{}", refusal.number()),
        }
    }
}

// What status of the small shape answers.
fn small_status(words: &[u32]) -> Answer {
    Answer(status(small_layout().shape, words))
}

// The words with bit b of word i flipped.
fn flipped(mut words: [u32; 28], i: usize, b: u32) -> [u32; 28]
    requires { (i < 28) × (b < 32) }
{
    words[i] ^= 1 << b;
    words
}

// Each bit of word i flipped.
fn word_line(rt: &impl Print, journal: Journal, words: [u32; 28], i: usize) -> io::Result<()>
    requires { i < 28 }
{
    print!(rt; "{journal} word {i}:")?;
    for b in 0..32 {
        print!(rt; " {}", small_status(&flipped(words, i, b)))?;
    }
    println!(rt)
}

// The same, with the count made right after the flip.
fn counted_line(rt: &impl Print, journal: Journal, words: [u32; 28], i: usize) -> io::Result<()>
    requires { i < 28 }
{
    print!(rt; "{journal} counted {i}:")?;
    for b in 0..32 {
        let mut damaged = flipped(words, i, b);
        recount(&mut damaged);
        print!(rt; " {}", small_status(&damaged))?;
    }
    println!(rt)
}

// One journal, undamaged and then damaged at every place.
fn damage(rt: &impl Print, journal: Journal) -> io::Result<()> {
    let words = make(journal);
    println!(rt; "{journal}: {}", small_status(&words))?;
    for i in 0..28 {
        word_line(rt, journal, words, i)?;
    }
    for w in 0..12 {
        counted_line(rt, journal, words, 4 + 2 * w)?;
    }
    Ok(())
}

// ---- other shapes and lengths

// A shape of four numbers.
const fn shape(n: usize, k: usize, s: usize, b: usize) -> Shape {
    Shape { n, k, s, b }
}

// What status answers for another shape.
fn other_shape(rt: &impl Print, z: Shape, words: &[u32]) -> io::Result<()> {
    let Shape { n, k, s, b } = z;
    println!(rt; "shape {n} {k} {s} {b}: {}", Answer(status(z, words)))
}

// Good and bad shapes.
fn other_shapes(rt: &impl Print, words: &[u32]) -> io::Result<()> {
    for &z in &[
        shape(3, 1, 1, 4),
        shape(3, 1, 1, 5),
        shape(3, 1, 1, 0),
        shape(3, 1, 1, 4096),
        shape(3, 1, 1, 4097),
        shape(2, 1, 4, 4),
        shape(3, 2, 1, 4),
        shape(3, 1, 2, 4),
        shape(4, 1, 3, 4),
        shape(4, 1, 2, 4),
        shape(3, 3, 1, 4),
        shape(3, 0, 1, 4),
        shape(3, 1, 0, 4),
        shape(19, 18, 1, 4),
        shape(19, 18, 2, 4),
        shape(6, 1, 1, 4),
    ] {
        other_shape(rt, z, words)?;
    }
    Ok(())
}

// The words and one more.
fn lengthened(words: [u32; 28]) -> [u32; 29] {
    let mut long = [0; 29];
    long[..28].copy_from_slice(&words);
    long
}

// A word too few, a word too many, and none.
fn other_lengths(rt: &impl Print, words: &[u32; 28]) -> io::Result<()> {
    println!(rt; "short: {}", small_status(&words[..27]))?;
    println!(rt; "long: {}", small_status(&lengthened(*words)))?;
    println!(rt; "empty: {}", small_status(&[]))
}

fn main(rt: HostRuntime) -> io::Result<()> {
    for &journal in &JOURNALS {
        damage(&rt, journal)?;
    }
    let middle = make(Journal::Middle);
    other_shapes(&rt, &middle)?;
    other_lengths(&rt, &middle)
}
