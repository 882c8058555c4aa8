// The texts that are printed.
ghost use Rattle.std.specs.Prelude.{◌+◌, ◌≤◌, ◌<◌, length};
ghost use Rattle.report.specs.Text.{line, pair, single, refused_text, kept_line, straight_line, moved_line, shape_text, answer_text};
ghost use Rattle.report.specs.Writing.{Room, Appends, Holds};

use crate::text::Report;
use layout::{Layout, Shape};

impl Report {
    // Appends the line of three numbers.
    pub fn push_line(self, n: usize, k: usize, s: usize) -> Report
        requires n_bound { (n < 1000) × (k < 1000) × (s < 1000) }
        requires room { Room self 12 }
        ensures { Appends self (line n k s) result × (result.length ≤ self.length + 12) }
    {
        let first = self.push_number(n).push(b' ');
        let second = first.push_number(k).push(b' ');
        second.push_number(s).push(b'\n')
    }

    // Appends a line of one word with its number.
    #[tactic(auto, using(crate::proofs::Writing::appends_both, crate::proofs::Decimal::length_six), unfolding(crate::specs::Text::single))]
    fn push_single(self, word: &[u8], a: usize) -> Report
        requires a_bound { a < 1000000 }
        requires room { Room self (length word.now + 7) }
        ensures { Appends self (single word.now a) result }
    {
        self.push_word(word).push_number(a).push(b'\n')
    }

    // Appends a line of two words, each with its number.
    fn push_pair(self, word: &[u8], a: usize, next: &[u8], b: usize) -> Report
        requires a_bound { (a < 1000000) × (b < 1000000) }
        requires room { Room self (length word.now + length next.now + 13) }
        ensures { Appends self (pair word.now a next.now b) result
            × (result.length ≤ self.length + (length word.now + length next.now + 13)) }
    {
        let front = self.push_word(word).push_number(a);
        front.push_word(next).push_number(b).push(b'\n')
    }

    // Appends the second line of a shape.
    #[tactic(auto, unfolding(crate::specs::Text::kept_line))]
    fn push_kept(self, z: Layout) -> Report
        requires room { Room self 29 }
        ensures { Appends self (kept_line z.shape) result × (result.length ≤ self.length + 29) }
    {
        let kept = counts::kept_count(z);
        let dissolved = counts::dissolved_count(z);
        self.push_pair(b"kept ", kept, b" dissolved ", dissolved)
    }

    // Appends the third line of a shape: of the kept stripes, those that are not straight are swapped.
    #[tactic(auto, using(layout::proofs::Evenness::straight_le), unfolding(crate::specs::Text::straight_line))]
    fn push_straight(self, z: Layout) -> Report
        requires room { Room self 31 }
        ensures { Appends self (straight_line z.shape) result × (result.length ≤ self.length + 31) }
    {
        let kept = counts::kept_count(z);
        let straight = counts::straight_stripes(z);
        self.push_pair(b"straight ", straight, b" swapped ", kept - straight)
    }

    // Appends the last line of a shape.
    #[tactic(auto, unfolding(crate::specs::Text::moved_line))]
    fn push_moved(self, z: Layout) -> Report
        requires room { Room self 13 }
        ensures { Appends self (moved_line z.shape) result }
    {
        let moved = counts::all_transfers(z);
        self.push_single(b"moved ", moved)
    }
}

// The text of a refusal.
#[tactic(auto, using(crate::proofs::Writing::holds), unfolding(crate::specs::Text::refused_text))]
pub fn refused(number: usize) -> Report
    requires { number < 1000 }
    ensures { Holds (refused_text number) result }
{
    Report::empty().push_single(b"refused ", number)
}

// The four lines of a shape.
#[tactic(auto, using(crate::proofs::Writing::holds, crate::proofs::Writing::appends_both), unfolding(crate::specs::Text::shape_text))]
fn shape_text(z: Layout) -> Report
    ensures { Holds (shape_text z.shape) result }
{
    let Shape { n, k, s, .. } = z.shape;
    let first = Report::empty().push_word(b"shape ").push_line(n, k, s);
    first.push_kept(z).push_straight(z).push_moved(z)
}

// The answer to a line of three numbers. Blocks count as of one byte.
pub fn answer(n: usize, k: usize, s: usize) -> Report
    ensures { Holds (answer_text n k s) result }
{
    match counts::check_shape(Shape { n, k, s, b: 1 }) {
        Ok(layout) => shape_text(layout),
        Err(refusal) => refused(refusal.number() as usize),
    }
}
