// Words in messages: four bytes, the lowest first.
ghost use Rattle.std.specs.Prelude.{◌≡◌, ◌+◌, ◌≤◌, length};
ghost use Rattle.area.specs.Area.{put};
ghost use Rattle.wire.specs.Words.{bytes_of};

// Writes a word with its lowest byte at a place.
#[tactic(auto, using(area::proofs::Parts::put_mid_whole))]
pub fn put_word(bytes: &mut [u8], at: usize, x: u32)
    requires { at + 4 ≤ length bytes.old }
    ensures { bytes.new ≡ put bytes.old at (bytes_of x) }
{
    bytes[at..at + 4].copy_from_slice(&x.to_le_bytes());
}
