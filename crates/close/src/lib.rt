// Document 01's call close: zeroes all dissolved cells and sets state 2.
#![tactic(auto)]

ghost use Rattle.std.specs.Prelude.{◌≡◌, length, IfOk};
ghost use Rattle.answer.specs.Cases.{of_step};
ghost use Rattle.answer.specs.Numbers.{refusal_number};
ghost use Rattle.layout.specs.Addresses.{area_length};
ghost use Rattle.growth.specs.Shared.{Outcome};
ghost use Rattle.growth.specs.Close.{close_refusal, cleared_area, closed_header, close};

use answer::{Refusal, Step};
use counts::addresses::slot_address;
use counts::{dissolved_count, kept_count};
use journal::headers::{JournalHeader, read_header, state_word, write_header};
use journal::states::State;
use layout::{Layout, Shape};
use lent::{check_store, check_whole};

// The refusals of close.
fn check_close(z: Shape, area_bytes: usize, journal: &[u32]) -> Result<Layout, Refusal>
    ensures refusal { refusal_number result ≡ close_refusal z area_bytes journal.now }
    ensures layout { IfOk result (λ layout. layout.shape ≡ z) }
{
    let layout = check_store(z, area_bytes, journal.len())?;
    let book = check_whole(layout, journal)?;
    if !book.released {
        return Err(Refusal::Unfinished);
    }
    Ok(layout)
}

// Zeroes the cells of the dissolved stripes: on each old node the slots from P on.
fn clear_dissolved(z: Layout, area: &mut [u8])
    requires area_len { length area.old ≡ area_length z.shape }
    ensures { area.new ≡ cleared_area z.shape area.old }
{
    let Shape { n, b, .. } = z.shape;
    let kept = kept_count(z);
    let bytes = dissolved_count(z) * b;
    for v in 0..n {
        area::zero(area, slot_address(z, v, kept) * b, bytes);
    }
}

// The header of a growth that has ended.
#[tactic(auto, unfolding(growth::specs::Close::closed_header))]
fn closed_header(z: Layout, h: JournalHeader) -> JournalHeader
    ensures { result ≡ closed_header z.shape h }
{
    JournalHeader {
        state: state_word(State::Closed, z),
        ..h
    }
}

// Ends a growth whose stripes are all released.
pub fn close(z: Shape, area: &mut [u8], journal: &mut [u32]) -> Result<Step, Refusal>
    ensures { ◌≡◌ {A = Outcome} (record { answer = of_step result; area = area.new; journal = journal.new })
        (close z area.old journal.old) }
{
    let layout = check_close(z, area.len(), journal)?;
    clear_dissolved(layout, area);
    write_header(journal, closed_header(layout, read_header(journal)));
    Ok(Step::Done)
}
