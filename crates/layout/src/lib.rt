// The shape of a growth.
#![tactic(auto)]

ghost use Rattle.layout.specs.Ranges.{InRanges};

// The shape of a growth: n old nodes, k data columns of an old stripe, s new nodes, blocks of b bytes.
#[derive(Clone, Copy)]
pub struct Shape {
    pub n: usize,
    pub k: usize,
    pub s: usize,
    pub b: usize,
}

// A shape that no refusal meets.
#[derive(Clone, Copy)]
pub struct Layout {
    pub shape: Shape,
    pub ghost in_ranges: { InRanges shape },
}
