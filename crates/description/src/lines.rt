// The lines of a text: where their values stand.
ghost use Rattle.std.specs.Prelude.{◌≡◌, false, ◌≤◌, ltb, length, take, drop, MatchOption};
ghost use Rattle.slices.specs.Slices.{same};
ghost use Rattle.texts.specs.Breaks.{until_lf};
ghost use Rattle.attributes.specs.Lines.{label, is_line, without_cr};
ghost use Rattle.description.specs.Inner.{Ending, Split, Stepped};

use attributes::Part;

// The values of the lines that are there, empty parts for those that are not; how many there are, and where they end. An array
// and a count, since the library has no heap.
#[derive(Clone, Copy)]
pub(crate) struct Lines {
    pub(crate) parts: [Part; 15],
    pub(crate) count: usize,
    pub(crate) next: usize,
}

// Where a value ends: how many bytes stand before LF, and how many of them are the value.
#[derive(Clone, Copy)]
struct End {
    before: usize,
    length: usize,
}

// A line: where its value stands, and where the next line begins.
#[derive(Clone, Copy)]
struct Step {
    value: Part,
    next: usize,
}

// Whether the two digits of k and a colon stand at `at`: the same three bytes as the writer's `label` in crate composing.
fn labelled(text: &[u8], k: usize, at: usize) -> bool
    requires { at ≤ length text.now }
    ensures { result ≡ same (take 3 (drop at text.now)) (label k) }
{
    if text.len() - at < 3 {
        return false;
    }
    let start = [(k / 10 % 10) as u8 + b'0', (k % 10) as u8 + b'0', b':'];
    slices::same(&text[at..at + 3], &start)
}

// Of n bytes before LF, how many are the value: one CR straight before LF belongs to the end.
fn value_length(rest: &[u8], n: usize) -> usize
    requires { n ≤ length rest.now }
    ensures { result ≡ without_cr rest.now n }
{
    if n == 0 {
        return 0;
    }
    if rest[n - 1] == b'\r' {
        return n - 1;
    }
    n
}

// The end of a value that begins at the front; none where no LF stands behind it.
fn ending(rest: &[u8]) -> Option<End>
    ensures { MatchOption result (ltb (until_lf rest.now) (length rest.now) ≡ false) (λ e. Ending rest.now e.before e.length) }
{
    let n = texts::until_lf(rest);
    if n >= rest.len() {
        return None;
    }
    Some(End {
        before: n,
        length: value_length(rest, n),
    })
}

// Line k at `at`, if it stands there.
fn line_at(text: &[u8], k: usize, at: usize) -> Option<Step>
    requires { at ≤ length text.now }
    ensures { MatchOption result (is_line text.now k at ≡ false) (λ s. Stepped text.now k at s.value s.next) }
{
    if !labelled(text, k, at) {
        return None;
    }
    let end = ending(&text[at + 3..])?;
    Some(Step {
        value: Part {
            at: at + 3,
            length: end.length,
        },
        next: at + 3 + end.before + 1,
    })
}

// The fifteen lines, or as many as stand in order at the front.
pub(crate) fn split(text: &[u8]) -> Lines
    ensures { Split text.now result.parts result.count result.next }
{
    let mut parts = [Part { at: 0, length: 0 }; 15];
    let mut at: usize = 0;
    for k in 0..15 {
        let Some(step) = line_at(text, k + 1, at) else {
            return Lines {
                parts,
                count: k,
                next: at,
            };
        };
        parts[k] = step.value;
        at = step.next;
    }
    Lines {
        parts,
        count: 15,
        next: at,
    }
}
