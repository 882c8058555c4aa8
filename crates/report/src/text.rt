// A text of at most 128 bytes, by value, and what appends to it. Where nothing may fail and there is no heap it is no `String`.
ghost use Rattle.std.specs.Prelude.{◌≡◌, ◌∷◌, [], ◌+◌, ◌<◌, length};
ghost use Rattle.report.specs.Text.{decimal};
ghost use Rattle.report.specs.Writing.{written, Room, Appends, Compares};

// The text is the first `length` bytes.
#[derive(Clone, Copy)]
pub struct Report {
    pub text: [u8; 128],
    pub length: usize,
}

impl Report {
    // The empty text.
    #[tactic(auto, unfolding(crate::specs::Writing::written))]
    pub fn empty() -> Report
        ensures { (written result ≡ []) × (result.length ≡ 0) × (length result.text ≡ 128) }
    {
        Report {
            text: [0; 128],
            length: 0,
        }
    }

    // Appends one byte.
    pub fn push(mut self, c: u8) -> Report
        requires { Room self 1 }
        ensures { Appends self (c ∷ []) result }
    {
        self.text[self.length] = c;
        self.length += 1;
        self
    }

    // Appends the bytes of a word.
    pub fn push_word(self, word: &[u8]) -> Report
        requires { Room self (length word.now) }
        ensures { Appends self word.now result }
    {
        let mut report = self;
        for &c in word {
            report = report.push(c);
        }
        report
    }

    // Appends the digits of a number: first those of m / 10, where there are any, then the last.
    pub fn push_number(self, m: usize) -> Report
        requires { Room self (length (decimal m)) }
        ensures { Appends self (decimal m) result }
    {
        let digit = b'0' + (m % 10) as u8;
        if m < 10 {
            self.push(digit)
        } else {
            self.push_number(m / 10).push(digit)
        }
    }

    // Whether the text is the input, byte for byte.
    pub fn is_text(&self, input: &[u8]) -> bool
        requires { Room self.now 0 }
        ensures { Compares (written self.now) input.now result }
    {
        // The length is a condition of its own, so that a must-fail edit can let a longer input pass.
        input.len() == self.length && input.starts_with(&self.text[..self.length])
    }
}
