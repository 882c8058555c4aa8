// The three numbers of a line, read from any text.
ghost use Rattle.std.specs.Prelude.{◌≡◌};
ghost use Rattle.report.specs.Reading.{after_byte, numbers_of};

#[derive(Clone, Copy)]
pub struct Numbers {
    pub first: usize,
    pub second: usize,
    pub third: usize,
}

impl Numbers {
    // The numbers after one byte more. A number stops growing at 1000, so that no text is too long to be read.
    #[tactic(auto, unfolding(crate::specs::Reading::after_byte))]
    fn after_byte(self, c: u8) -> Numbers
        ensures { result ≡ after_byte self c }
    {
        match c {
            b' ' => Numbers {
                first: self.second,
                second: self.third,
                third: 0,
            },
            b'0'.. if self.third < 1000 => Numbers {
                third: self.third * 10 + (c - b'0') as usize,
                ..self
            },
            _ => self,
        }
    }
}

// Reads three numbers without looking whether the text is a line: that is asked afterwards, by writing the line anew.
pub fn read_numbers(text: &[u8]) -> Numbers
    ensures { result ≡ numbers_of text.now }
{
    let mut numbers = Numbers {
        first: 0,
        second: 0,
        third: 0,
    };
    for &c in text {
        numbers = numbers.after_byte(c);
    }
    numbers
}
