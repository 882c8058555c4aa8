// Where the new blocks of a kept stripe stand in their node's own part of the area.
#![tactic(auto)]

ghost use Rattle.std.specs.Prelude.{◌<◌};
ghost use Rattle.layout.specs.Counts.{kept};
ghost use Rattle.parts.specs.Own.{NewOffsets};

use layout::{Layout, Shape};
use sources::source_slot;

// The offset of each of the s new blocks of w.
pub fn new_offsets(z: Layout, w: usize) -> [usize; 20]
    requires w_bound { w < kept z.shape }
    ensures { NewOffsets z.shape w result }
{
    let Shape { s, b, .. } = z.shape;
    let mut at = [0; 20];
    for t in 0..s {
        at[t] = source_slot(z, w, t) * b;
    }
    at
}
