// Whether settings are within their ranges: document 01, sections 2 and 4; editions and orders document 02, R-9 and R-8.
#![tactic(auto)]

ghost use Rattle.std.specs.Prelude.{◌≡◌};
ghost use Rattle.settings.specs.Settings.{order_fits, settings_fit};

use settings::Settings;

// Whether a file may be sent in this order. Columns are sent of tables alone, so under protection.
fn order_fits(protection: u8, order: u16) -> bool
    ensures { result ≡ order_fits protection order }
{
    if order == 0 {
        return true;
    }
    order == 1 && protection != 0
}

// Whether every setting is within its range, type 0 being outside. Without protection any M is taken.
pub fn settings_fit(settings: Settings) -> bool
    ensures { result ≡ settings_fit settings }
{
    if settings.resource == 0 {
        return false;
    }
    if settings.kind == 0 || 2 < settings.kind {
        return false;
    }
    if 15 < settings.update || 1 < settings.protection {
        return false;
    }
    if settings.protection == 1 && settings.rows == 0 {
        return false;
    }
    if settings.edition == 0 || 2 < settings.edition {
        return false;
    }
    if !order_fits(settings.protection, settings.order) {
        return false;
    }
    settings::size_fits(settings.protection, settings.order, settings.size)
}
