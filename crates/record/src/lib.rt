// What becomes of a packet that is offered to the collecting record and taken: document 01, section 5; document 02, R-7. No code: the crate has the definitions of Offer (specs/), and what is
// proved of them (proofs/). Packets are offered in crate offering; places are opened and closed in crate opening; what is asked of them, status and hand out, stands in the
// crates standing and readout.
#![tactic(auto)]

// What became of a packet that was taken. Both carry the bytes mended in it, all its rows together; 0 without protection.
#[derive(Clone, Copy)]
pub enum Offered {
    Stored(u32),
    Repeat(u32),
}
