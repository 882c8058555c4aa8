// Document 01's examples E1 to E3, run: a stripe of two columns and two rows, of blocks of one byte, grows by a column.
// The stripe is a part of the area that starts in its middle, as a node's part does: columns 0 to 2, then the rows.
#![tactic(auto)]

ghost use Rattle.std.specs.Prelude.{◌≡◌, ◌<◌, length};

use std::io;

// Encodes the rows over the first two columns.
fn encode(stripe: &mut [u8])
    requires { length stripe.old ≡ 5 }
{
    let at = combine::offsets::consecutive(2, 1);
    for j in 0..2 {
        code::write_row(stripe, 3 + j, &at, 2, j, code::multiplier(j, 2), 1);
    }
}

// Adds the delta of column 2 to row j.
fn add_column(stripe: &mut [u8], j: usize)
    requires stripe_len { length stripe.old ≡ 5 }
    requires j_bound { j < 2 }
{
    let at = [2; 20];
    code::add_delta(stripe, 3 + j, &at, 2, 1, j, 1);
}

// Whether both rows are those over all three columns.
fn rows_hold(stripe: &[u8]) -> bool
    requires { length stripe.now ≡ 5 }
{
    let at = combine::offsets::consecutive(3, 1);
    code::row_holds(stripe, 3, &at, 3, 0, code::multiplier(0, 3), 1)
        && code::row_holds(stripe, 4, &at, 3, 1, code::multiplier(1, 3), 1)
}

// Prints both rows, and whether they hold over all three columns.
fn show(rt: &impl Print, stripe: &[u8]) -> io::Result<()>
    requires { length stripe.now ≡ 5 }
{
    print!(rt; "{:02x} {:02x}", stripe[3], stripe[4])?;
    if rows_hold(stripe) {
        println!(rt; ", parity of the grown stripe")
    } else {
        println!(rt; ", not yet parity of the grown stripe")
    }
}

// The stripe in the middle of an area: encoded, grown, and a delta added once too often.
fn life_of_a_stripe(rt: &impl Print, area: &mut [u8]) -> io::Result<()>
    requires { length area.old ≡ 8 }
{
    print!(rt; "rows over 05 07:               ")?;
    encode(&mut area[2..7]);
    show(rt, &area[2..7])?;
    print!(rt; "delta of 80 added to both:     ")?;
    add_column(&mut area[2..7], 0);
    add_column(&mut area[2..7], 1);
    show(rt, &area[2..7])?;
    print!(rt; "delta added to row 1 again:    ")?;
    add_column(&mut area[2..7], 1);
    show(rt, &area[2..7])
}

fn main(rt: HostRuntime) -> io::Result<()> {
    let mut area = [0, 0, 5, 7, 128, 0, 0, 0];
    life_of_a_stripe(&rt, &mut area)
}
