// What the C face writes into lent memory: bytes and fields, put at the start of an output. Beside this code the crate has what each function of the C face
// answers and leaves (specs/Face.antt), and the laws of it (proofs/).
#![tactic(auto)]

ghost use Rattle.packet.specs.Told.{field_list};
ghost use Rattle.face.specs.Face.{Says, puts};

use packet::Packet;

// Output's number, for an output that is too short: what C is answered is a number.
const NO_ROOM: u64 = 26;

// The bytes at the start of the output, if it has room.
pub fn put(bytes: &[u8], out: &mut [u8]) -> u64
    ensures { Says (puts bytes.now out.old) result out.new }
{
    if out.len() < bytes.len() {
        return NO_ROOM;
    }
    slices::copy_in(out, 0, bytes);
    0
}

// The nine fields in the header's order and the edition that they show, at the start of `out`.
pub fn put_fields(f: Packet, out: &mut [u32]) -> u64
    ensures { Says (puts (field_list f) out.old) result out.new }
{
    let Some(first) = out.first_chunk_mut::<10>() else {
        return NO_ROOM;
    };
    *first = [
        f.resource as u32,
        f.number,
        f.update as u32,
        f.length as u32,
        f.count,
        f.kind as u32,
        f.protection as u32,
        f.rows as u32,
        f.reserved as u32,
        edition::edition_of(f) as u32,
    ];
    0
}
