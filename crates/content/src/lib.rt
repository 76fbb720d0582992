// The kinds of content of source document 001, table 3.
#![tactic(auto)]

ghost use Rattle.std.specs.Prelude.{◌≡◌};
ghost use Rattle.content.specs.Content.{content_of};

// What a kind is the kind of.
#[derive(Clone, Copy)]
pub enum Content {
    File,
    Stream,
    Reserved,
}

// Whether a kind is one of files or of streams, or reserved; what is no kind is reserved too.
pub fn content_of(kind: u64) -> Content
    ensures { result ≡ content_of kind }
{
    match kind {
        0 | 1 | 2 | 3 | 4 => Content::File,
        5..=20 => Content::Reserved,
        21 | 22 | 23 | 24 => Content::File,
        25..=40 => Content::Reserved,
        41 | 42 | 43 | 44 => Content::File,
        45..=60 => Content::Reserved,
        61 => Content::File,
        62..=127 => Content::Reserved,
        128 | 129 | 130 | 131 => Content::Stream,
        132..=255 => Content::Reserved,
        _ => Content::Reserved,
    }
}
