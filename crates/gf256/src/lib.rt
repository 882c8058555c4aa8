// GF(256) modulo 0x11D: product and inverse by logarithms, and doubling.
#![tactic(auto)]

pub mod exp_table;
pub mod log_table;

ghost use Rattle.std.specs.Prelude.{◌≡◌, ◌<◌};
ghost use Rattle.gf256.specs.Field.{pow, mul, xtime};
ghost use Rattle.gf256.specs.Logs.{inv, IsLog, HasPowers, HasLogs};

use exp_table::power;
use log_table::log;

// The product of two elements, through the two tables.
pub fn mul(powers: &[u8; 255], logs: &[u8; 255], a: u8, b: u8) -> u8
    requires { HasPowers powers.now × HasLogs logs.now }
    ensures { result ≡ mul a b }
{
    if a == 0 || b == 0 {
        return 0;
    }
    let s = log(logs, a) + log(logs, b);
    if s < 255 {
        power(powers, s)
    } else {
        power(powers, s - 255)
    }
}

// The inverse of an element other than 0.
pub fn inverse(powers: &[u8; 255], logs: &[u8; 255], a: u8) -> u8
    requires { HasPowers powers.now × HasLogs logs.now × (0 < a) }
    ensures { result ≡ inv a }
{
    let i = log(logs, a);
    if i == 0 {
        power(powers, 0)
    } else {
        power(powers, 255 - i)
    }
}

// The powers of 2 and the logarithms, by which elements are multiplied. A constant array is made anew at each use, so who multiplies
// makes the tables once.
#[derive(Drop)]
pub struct Tables {
    pub powers: [u8; 255],
    pub logs: [u8; 255],
    pub ghost has_powers: { HasPowers powers },
    pub ghost has_logs: { HasLogs logs },
}

impl Tables {
    // The two tables.
    pub fn new() -> Self {
        Tables {
            powers: exp_table::powers(),
            logs: log_table::logs(),
        }
    }

    // The i-th power of 2.
    pub fn power(&self, i: usize) -> u8
        requires { i < 255 }
        ensures { result ≡ pow 2 i }
    {
        power(&self.powers, i)
    }

    // The logarithm of an element other than 0: the power of 2 that it is.
    pub fn log(&self, a: u8) -> usize
        requires { 0 < a }
        ensures { IsLog a result }
    {
        log(&self.logs, a)
    }

    // The product of two elements.
    pub fn mul(&self, a: u8, b: u8) -> u8
        ensures { result ≡ mul a b }
    {
        mul(&self.powers, &self.logs, a, b)
    }

    // The inverse of an element other than 0.
    pub fn inverse(&self, a: u8) -> u8
        requires { 0 < a }
        ensures { result ≡ inv a }
    {
        inverse(&self.powers, &self.logs, a)
    }
}

// Twice an element. The bit that is shifted out, 256, is 29 modulo 0x11D.
pub fn double(x: u8) -> u8
    ensures { result ≡ xtime x }
{
    ((x % 128) * 2) ^ ((x / 128) * 29)
}
