// What is known of a stripe while its lost blocks are made again.
ghost use Rattle.std.specs.Prelude.{◌+◌, ◌≤◌, length};
ghost use Rattle.combine.specs.Columns.{Consecutive};

// A stripe has n blocks of b bytes, one after the other: k columns and then rows. A loss byte is 1 for a lost block.
#[derive(Drop)]
pub struct Repair<'a> {
    pub n: usize,
    pub k: usize,
    pub b: usize,
    pub losses: &'a [u8],
    pub at: [usize; 20],
    pub ghost sizes: { (k ≤ n) × (n ≤ k + 4) × (n ≤ 20) × (b ≤ 4096) × (n ≤ length losses.now) },
    pub ghost consecutive: { Consecutive n b at },
}
