// Answers as one number: the header include/brithelva.h says how. Each takes whatever value there is of its type.
#![tactic(auto)]

ghost use Rattle.std.specs.Prelude.{◌≡◌, Ok};
ghost use Rattle.refusals.specs.Told.{refused_as, verdict_told, length_told};
ghost use Rattle.record.specs.Told.{offered_told};
ghost use Rattle.standing.specs.Told.{standing_told};
ghost use Rattle.face.specs.Face.{answer_of, valued, Says, puts_if};
ghost use Rattle.answers.specs.Answers.{word_of};

use record::Offered;
use refusals::Refusal;
use standing::Standing;

// A value goes into the bits above the number's eight, of which there are 56.
const TOP: u64 = 72057594037927936;

// A refusal's number and value.
pub fn refused(r: Refusal) -> u64
    ensures { result ≡ answer_of (refused_as r) }
{
    refusals::number(r) as u64 + 256 * refusals::value(r) as u64
}

// What is answered where nothing is handed over.
pub fn verdict_of(verdict: Result<(), Refusal>) -> u64
    ensures { result ≡ answer_of (verdict_told verdict) }
{
    match verdict {
        Ok(()) => 0,
        Err(r) => refused(r),
    }
}

// What packing answers, and what writing a description answers: the length that was written as the value.
pub fn length_as(written: Result<usize, Refusal>) -> u64
    ensures { result ≡ word_of (answer_of (length_told written)) }
{
    match written {
        Ok(n) => 256 * (n as u64 % TOP),
        Err(r) => refused(r),
    }
}

// What offering answers: as the value twice the bytes mended, and 1 more where the slot held the payload already.
pub fn offered_as(offered: Result<Offered, Refusal>) -> u64
    ensures { result ≡ answer_of (offered_told offered) }
{
    match offered {
        Ok(Offered::Stored(mended)) => 256 * (2 * mended as u64),
        Ok(Offered::Repeat(mended)) => 256 * (2 * mended as u64 + 1),
        Err(r) => refused(r),
    }
}

// The filled slots, and the lowest empty one plus one in front of them where there is one.
fn filled_as(n: u32, lowest: Option<usize>) -> u64
    ensures { result ≡ word_of (answer_of (standing_told (Ok (record { filled = n; lowest = lowest })))) }
{
    match lowest {
        Some(i) => 256 * ((n as u64 + 16777216 * (i as u64 % 4294967296 + 1)) % TOP),
        None => 256 * n as u64,
    }
}

// What status answers: the filled slots and the lowest empty one.
pub fn standing_as(standing: Result<Standing, Refusal>) -> u64
    ensures { result ≡ word_of (answer_of (standing_told standing)) }
{
    match standing {
        Ok(s) => filled_as(s.filled, s.lowest),
        Err(r) => refused(r),
    }
}

// The bytes that go with a verdict.
pub fn put_if(verdict: Result<(), Refusal>, bytes: &[u8], out: &mut [u8]) -> u64
    ensures { Says (puts_if (verdict_told verdict) bytes.now out.old) result out.new }
{
    match verdict {
        Ok(()) => face::put(bytes, out),
        Err(r) => refused(r),
    }
}

// A value for an answer that is accepted without one; a refusal stays.
pub fn with_value(answer: u64, value: u32) -> u64
    ensures { result ≡ valued value answer }
{
    if answer == 0 {
        return 256 * value as u64;
    }
    answer
}
