// Numbers by chance from a seed, and sums over bytes and words that are short enough to print.

// A sequence of numbers by chance.
#[derive(Drop)]
pub struct Chance {
    seed: u64,
}

impl Chance {
    // The sequence of a seed.
    pub fn new(seed: u64) -> Chance {
        Chance { seed }
    }

    // The next number below the bound; 0 where the bound is 0.
    pub fn next(&mut self, bound: usize) -> usize {
        self.seed = (self.seed % 2147483648 * 1103515245 + 12345) % 2147483648;
        if bound == 0 {
            0
        } else {
            (self.seed / 65536) as usize % bound
        }
    }

    // Fills the bytes with the next numbers.
    pub fn fill(&mut self, bytes: &mut [u8]) {
        for byte in bytes.iter_mut() {
            *byte = (self.next(256) % 256) as u8;
        }
    }
}

// A sum with one number more.
pub fn mix(sum: u64, x: u64) -> u64 {
    (sum % 4294967291 * 31 + x % 4294967291 + 1) % 4294967291
}

// The sum of bytes or words, in their order.
pub fn sum_of<T: Copy + Into<u64>>(items: &[T]) -> u64 {
    items.iter().fold(0, |sum, &x| mix(sum, x.into()))
}
