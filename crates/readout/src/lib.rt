// The file that the place of a name holds: document 01, section 5, Hand out. Record and store are only read. What a place holds is handed out by crate handing, where
// the definitions are.
#![tactic(auto)]

ghost use Rattle.std.specs.Prelude.{◌≡◌};
ghost use Rattle.handing.specs.Hand.{hand_out_of};

use places::{Name, Record};
use refusals::Refusal;

// Writes the file of `length` bytes that the place of a name holds to the start of the output, whose other bytes stay. Refused: 9, 10, 15, 21, 22,
// 23, 24, 26; then nothing is written.
pub fn hand_out(
    held: Record,
    store: &[u8],
    name: Name,
    length: usize,
    out: &mut [u8],
) -> Result<(), Refusal>
    ensures { (result ≡ (hand_out_of held store.now name length out.old).answer)
        × (out.new ≡ (hand_out_of held store.now name length out.old).output) }
{
    if !room::is_good(held, store.len()) {
        return Err(Refusal::Record);
    }
    let Some(i) = places::find_place(held, name) else {
        return Err(Refusal::Unknown);
    };
    handing::hand_place(held.places[i], store, length, out)
}
