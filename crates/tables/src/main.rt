// Prints the field's tables and the code's coefficients. The file `stdout` beside src/ was made by another library.
#![tactic(auto)]

ghost use Rattle.std.specs.Prelude.{◌<◌};

use code::coefficients::coefficient;
use gf256::Tables;
use std::fmt::Display;
use std::io;

// Prints n and a space, or the line's end after the last number of a line.
fn put(rt: &impl Print, n: impl Display + Drop, at: usize, width: usize) -> io::Result<()>
    requires { (at < 1000) × (0 < width) }
{
    if (at + 1) % width == 0 {
        println!(rt; "{n}")
    } else {
        print!(rt; "{n} ")
    }
}

// The powers 0 to 254 of 2.
fn powers(rt: &impl Print) -> io::Result<()> {
    let tables = Tables::new();
    println!(rt; "powers of 2")?;
    for i in 0..255 {
        put(rt, tables.power(i), i, 15)?;
    }
    Ok(())
}

// The logarithms of 1 to 255.
fn logarithms(rt: &impl Print) -> io::Result<()> {
    let tables = Tables::new();
    println!(rt; "logarithms")?;
    for i in 0..255u8 {
        put(rt, tables.log(i + 1), i as usize, 15)?;
    }
    Ok(())
}

// The inverses of 1 to 255.
fn inverses(rt: &impl Print) -> io::Result<()> {
    let tables = Tables::new();
    println!(rt; "inverses")?;
    for i in 0..255u8 {
        put(rt, tables.inverse(i + 1), i as usize, 15)?;
    }
    Ok(())
}

// The 4 rows of 19 coefficients.
fn coefficients(rt: &impl Print) -> io::Result<()> {
    println!(rt; "coefficients")?;
    for j in 0..4 {
        for c in 0..19 {
            put(rt, coefficient(j, c), c, 19)?;
        }
    }
    Ok(())
}

fn main(rt: HostRuntime) -> io::Result<()> {
    powers(&rt)?;
    logarithms(&rt)?;
    inverses(&rt)?;
    coefficients(&rt)
}
