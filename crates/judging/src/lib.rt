// Whether the attributes of a description may stand in their lines: by the fifteen rules that reader and writer share (crate attributes, specs/Rules.antt).
#![tactic(auto)]

ghost use Rattle.std.specs.Prelude.{cond, ◌&&◌, ◌≡◌, eqb, leb, length};
ghost use Rattle.ground.specs.Ranges.{between};
ghost use Rattle.content.specs.Content.{content_of};
ghost use Rattle.attributes.specs.Attributes.{part_of};
ghost use Rattle.attributes.specs.Rules.{is_text, fits_mode, time_fits, ordered, inside, rules, lowest};

use attributes::{Description, Part};
use calendar::{Time, not_given};
use content::Content;
use words::within;

// The kind of texts, the only one that has a charset: a number of source document 001 that C hands over.
const TEXT: u64 = 21;

// Whether a number that is asked for lies between two; one that is not asked for must be `none`.
fn given_where(asked: bool, low: u64, high: u64, none: u64, n: u64) -> bool
    ensures { result ≡ cond asked (between low high n) (eqb n none) }
{
    if asked {
        return within(low, high, n);
    }
    n == none
}

// Whether a part lies in the text, and is UTF-8 without CR or LF, of at least so many bytes.
fn text_fits(text: &[u8], least: usize, p: Part) -> bool
    ensures { result ≡ (inside text.now p && (leb least (length (part_of text.now p)) && is_text (part_of text.now p))) }
{
    let at = p.at;
    let length = p.length;
    if at > text.len() {
        return false;
    }
    if length > text.len() - at {
        return false;
    }
    if length < least {
        return false;
    }
    let end = at + length;
    let part = &text[at..end];
    texts::unbroken(part) && texts::well_formed(part)
}

// Whether a kind of content goes with the mode: files with 1, streams with 0.
fn kind_fits(kind: u64, mode: u64) -> bool
    ensures { result ≡ fits_mode (content_of kind) mode }
{
    let content = content::content_of(kind);
    match content {
        Content::File => mode == 1,
        Content::Stream => mode == 0,
        Content::Reserved => false,
    }
}

// Whether a time is left out or real.
fn time_fits(t: Time) -> bool
    ensures { result ≡ time_fits t }
{
    not_given(t) | calendar::is_real(t)
}

// Whether a validity may end so: at no time, or at a real one that the start is not after.
fn end_fits(begins: Time, ends: Time) -> bool
    ensures { result ≡ (time_fits ends && ordered begins ends) }
{
    time_fits(ends) & (not_given(begins) | (not_given(ends) | calendar::not_after(begins, ends)))
}

// Whether each of the fifteen lines may hold its attribute.
fn judged(text: &[u8], d: Description) -> [bool; 15]
    ensures { result ≡ rules text.now d }
{
    [
        within(9000, 9999, d.service),
        within(0, 1, d.mode),
        within(1, 65535, d.resource),
        within(0, 15, d.update),
        text_fits(text, 1, d.name),
        kind_fits(d.kind, d.mode),
        text_fits(text, 0, d.title),
        text_fits(text, 0, d.summary),
        text_fits(text, 0, d.keywords),
        given_where(d.kind == TEXT, 0, 4, Description::NO_CHARSET, d.charset),
        text_fits(text, 0, d.path),
        given_where(d.mode == 1, 1, 16777216, Description::NO_SIZE, d.size),
        time_fits(d.begins),
        end_fits(d.begins, d.ends),
        within(0, 1, d.delete),
    ]
}

// The lowest line whose attribute cannot stand there, 1 to 15; 16 where all can, as the definition `lowest` has it. The texts are parts of `text`; one that reaches beyond it cannot stand.
pub fn lowest_fault(text: &[u8], d: Description) -> u64
    ensures { result ≡ lowest (rules text.now d) }
{
    let fits = judged(text, d);
    for (i, fit) in fits.iter().enumerate() {
        if !*fit {
            return i as u64 + 1;
        }
    }
    16
}
