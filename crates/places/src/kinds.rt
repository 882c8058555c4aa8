// The kinds of a first word: of a message, for a delta, a new block or parity row 0, and of a receipt.
#[derive(Clone, Copy, Debug, PartialEq, Eq)]
pub enum Kind {
    Delta = 1,
    NewBlock = 2,
    ParityRow = 3,
    Receipt = 4,
}
