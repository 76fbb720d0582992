// The attributes of a description file (document 02, R-4; source document 001, section 7.2). No code: the crate has the definitions
// of the fifteen lines (specs/) and what is proved of the format in both directions (proofs/).
#![tactic(auto)]

use calendar::Time;

// A part of a lent text: where it begins, and how many bytes it has.
#[derive(Clone, Copy)]
pub struct Part {
    pub at: usize,
    pub length: usize,
}

// The fifteen attributes, line 01 first; `size` is the file's length. A time of zeros stands for none.
#[derive(Clone, Copy)]
pub struct Description {
    pub service: u64,
    pub mode: u64,
    pub resource: u64,
    pub update: u64,
    pub name: Part,
    pub kind: u64,
    pub title: Part,
    pub summary: Part,
    pub keywords: Part,
    pub charset: u64,
    pub path: Part,
    pub size: u64,
    pub begins: Time,
    pub ends: Time,
    pub delete: u64,
}

impl Description {
    // A charset that is not given. It is a number and no `None`, since `no_charset` (specs/Attributes.antt), which the rules and the C face's numbers go by, is one.
    pub const NO_CHARSET: u64 = 255;
    // A size that is not given, a number for the same reason (`no_size`).
    pub const NO_SIZE: u64 = 0;
}
