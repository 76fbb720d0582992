// Open and Close of the collecting record: document 01, section 5. The record is a struct by value, returned anew; open clears slots of the lent store.
// Refusals in the orders 9, 17, 18, 19, 20 and 9, 10. What is done with a place while it is open stands in the crates record, standing and readout.
#![tactic(auto)]

ghost use Rattle.std.specs.Prelude.{◌≡◌, ◌+◌, ◌*◌, ◌≤◌, length};
ghost use Rattle.settings.specs.Settings.{house};
ghost use Rattle.places.specs.Places.{first_unused};
ghost use Rattle.contents.specs.Slots.{cleared};
ghost use Rattle.opening.specs.Open.{with_unused, plan_of, Opens, renewed, close_of};
ghost use Rattle.opening.specs.Inner.{planned};

pub use places::fresh;
use places::{Name, Place, Record};
use refusals::Refusal;
use settings::Settings;

// An unused place and the lowest start for `size` bytes.
fn room_for(held: Record, n: usize, size: usize) -> Result<(usize, usize), Refusal>
    ensures { result ≡ planned (with_unused held n size (first_unused held.places)) }
{
    let place = places::find_unused(held).ok_or(Refusal::Full)?;
    let start = room::lowest_start(held, n, size).ok_or(Refusal::Room)?;
    Ok((place, start))
}

// All that open judges, for a store of n bytes.
fn plan_open(
    held: Record,
    n: usize,
    settings: Settings,
    count: u32,
) -> Result<(usize, usize), Refusal>
    ensures { result ≡ planned (plan_of held n settings count) }
{
    if !room::is_good(held, n) {
        return Err(Refusal::Record);
    }
    if !fitting::settings_fit(settings) {
        return Err(Refusal::Field);
    }
    if !places::count_fits(count) {
        return Err(Refusal::Field);
    }
    let name = Name {
        resource: settings.resource,
        kind: settings.kind,
    };
    if let Some(_) = places::find_place(held, name) {
        return Err(Refusal::Held);
    }
    room_for(held, n, places::cover_of(count, settings.size))
}

// Sets the length of each of `count` slots, `width` bytes apart, to 0. Who calls has judged the record, so that these bytes are in the store.
fn clear_slots(store: &mut [u8], start: usize, count: usize, width: usize)
    requires { (2 ≤ width) × (start + count * width ≤ length store.old) }
    ensures { store.new ≡ cleared store.old start count width }
{
    for k in 0..count {
        let at = start + k * width;
        store[at] = 0;
        store[at + 1] = 0;
    }
}

// Opens a place for the `count` packets of a file under `settings`: the first unused one, from the lowest start at which its slots fit
// the store and meet no other place. Each of its slots is then empty. Refused, the store is as it came.
pub fn open(
    held: Record,
    store: &mut [u8],
    settings: Settings,
    count: u32,
) -> Result<Record, Refusal>
    ensures { Opens held store.old settings count result store.new }
{
    let (i, start) = plan_open(held, store.len(), settings, count)?;
    clear_slots(store, start, count as usize, settings.size as usize + 2);
    let mut next = held;
    next.places[i] = places::place_of(settings, count, start as u32);
    Ok(next)
}

// The same under the house setting.
pub fn open_house(
    held: Record,
    store: &mut [u8],
    resource: u16,
    kind: u8,
    update: u8,
    count: u32,
) -> Result<Record, Refusal>
    ensures { Opens held store.old (house resource kind update) count result store.new }
{
    open(held, store, settings::house(resource, kind, update), count)
}

// Makes the place that a name means unused, all its fields 0. The store stays.
pub fn close(held: Record, store: &[u8], name: Name) -> Result<Record, Refusal>
    ensures { result ≡ renewed (close_of held store.now name) }
{
    if !room::is_good(held, store.len()) {
        return Err(Refusal::Record);
    }
    let i = places::find_place(held, name).ok_or(Refusal::Unknown)?;
    let mut next = held;
    next.places[i] = Place::UNUSED;
    Ok(next)
}
