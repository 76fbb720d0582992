// The ranges of one place, and what two places must not share: document 01, sections 2, 4 and 5.
ghost use Rattle.std.specs.Prelude.{◌≡◌, ◌&&◌, leb};
ghost use Rattle.places.specs.Places.{usable, end_of, settings_in, ranges_fit, agree};

use places::{Name, Place, end_of};
use settings::Settings;

// How much of a store of n bytes is used.
pub(crate) fn usable(n: usize) -> usize
    ensures { result ≡ usable n }
{
    if n <= 16777216 { n } else { 16777216 }
}

// The settings that a place holds.
fn settings_in(p: Place) -> Settings
    ensures { result ≡ settings_in p }
{
    Settings {
        resource: p.resource,
        kind: p.kind,
        update: p.update,
        protection: p.protection,
        rows: p.rows,
        size: p.slot,
        edition: p.edition,
        order: p.order,
    }
}

// Every range of a place; without protection M is held as 0.
fn ranges_fit(p: Place) -> bool
    ensures { result ≡ ranges_fit p }
{
    let settings = settings_in(p);
    if !fitting::settings_fit(settings) {
        return false;
    }
    if p.rows != settings::rows_held(settings) {
        return false;
    }
    places::count_fits(p.count)
}

// A place in use that is in its ranges and does not pass the end of a store of n bytes.
pub(crate) fn is_sound(n: usize, p: Place) -> bool
    ensures { result ≡ (ranges_fit p && leb (end_of p) (usable n)) }
{
    ranges_fit(p) && end_of(p) <= usable(n)
}

// Two places that do not share both resource and type, nor a byte, or of which one is unused.
pub(crate) fn do_agree(p: Place, q: Place) -> bool
    ensures { result ≡ agree p q }
{
    if q.resource == 0 {
        return true;
    }
    if p.resource == 0 {
        return true;
    }
    let name = Name {
        resource: p.resource,
        kind: p.kind,
    };
    if places::holds(q, name) {
        return false;
    }
    if end_of(p) <= q.start as usize {
        return true;
    }
    end_of(q) <= p.start as usize
}
