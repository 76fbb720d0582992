// Encoding of rows of RS(255,239): checks, and what rows leave when the generator divides them (document 01, section 3).
#![tactic(auto)]

ghost use Rattle.std.specs.Prelude.{◌≡◌};
ghost use Rattle.code.specs.Code.{generator as generatorOf};
ghost use Rattle.encoding.specs.Encode.{encode_of, checked_of, remainders_of};

mod halves;
mod register;

use refusals::Refusal;

// The sixteen checks of a row; zeros beside a refusal, which a `Result` could not say (`encode_row_refuses_with_ones`).
#[derive(Clone, Copy)]
pub struct Encoded {
    pub verdict: Result<(), Refusal>,
    pub checks: [u8; 16],
}

// The generator's coefficients, the highest power first. The register's table takes its rule from them.
pub(crate) const GENERATOR: [u8; 17] = [
    1, 59, 13, 104, 189, 68, 209, 30, 8, 163, 65, 41, 229, 98, 50, 36, 59,
];

// The generator, for those who want to see it.
pub fn generator() -> [u8; 17]
    ensures { result ≡ generatorOf }
{
    GENERATOR
}

// The checks of 239 information bytes; another length is refused.
pub fn encode_row(info: &[u8]) -> Encoded
    ensures { result ≡ encode_of info.now }
{
    if info.len() != 239 {
        return Encoded {
            verdict: Err(Refusal::Short),
            checks: [0u8; 16],
        };
    }
    Encoded {
        verdict: Ok(()),
        checks: register::row_checks(info),
    }
}

// Writes the checks of each whole row of 255 bytes behind its 239 information bytes, where they stand; bytes behind the last whole row stay.
pub fn put_checks(rows: &mut [u8])
    ensures { rows.new ≡ checked_of rows.old }
{
    let table = register::table();
    let t = &table;
    let n = rows.len() / 255;
    let pairs = n / 2;
    for i in 0..pairs {
        register::seal_two(rows, 2 * i * 255, t);
    }
    let r = 2 * pairs;
    if n <= r {
        return;
    }
    let at = r * 255;
    let q = register::checks(rows, at, t);
    register::put(rows, at + 239, q);
}

// What the rows of 255 bytes at the front of `rows` leave when the generator divides them, sixteen bytes each, of fifteen at most: zeros exactly where a row is
// coded. Behind them there are zeros too.
pub fn remainders(rows: &[u8]) -> [u8; 240]
    ensures { result ≡ remainders_of rows.now }
{
    let n = (rows.len() / 255).min(15);
    let t = register::table();
    let mut out = [0u8; 240];
    for i in 0..n {
        let r = register::rest(rows, i * 255, &t);
        register::put(&mut out, i * 16, r);
    }
    out
}
