// The shape program's work: from the text that it reads to the text that it prints.
#![tactic(auto)]

mod answers;
mod numbers;
pub mod text;

ghost use Rattle.std.specs.Prelude.{◌≡◌, ◌≤◌, length};
ghost use Rattle.report.specs.Reports.{Reports};
ghost use Rattle.report.specs.Writing.{written};

use answers::{answer, refused};
use numbers::{Numbers, read_numbers};
use text::Report;

// Document 01's number for text that is no line of three numbers.
const OTHER_TEXT: usize = 5;

// The answer to what was read, whatever it is. Three numbers are read from any text; then the line of these numbers is written
// anew, and the text is a line exactly if it is that one.
pub fn report(input: &[u8]) -> Report
    ensures { Reports input.now (written result) × (result.length ≤ 128) × (length result.text ≡ 128) }
{
    let Numbers {
        first: n,
        second: k,
        third: s,
    } = read_numbers(input);
    if n < 1000 && k < 1000 && s < 1000 && Report::empty().push_line(n, k, s).is_text(input) {
        answer(n, k, s)
    } else {
        refused(OTHER_TEXT)
    }
}
