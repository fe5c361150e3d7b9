// What a step is to do where no fetch is open, told from small parts of the state: so the state itself is handed on once, to the function that does it.
ghost use Rattle.std.specs.Prelude.{◌≡◌};
ghost use Rattle.pack.specs.Grid.{key_of};
ghost use Rattle.engine.specs.Plans as Plans;

use crate::{Due, Fix, Phase};
use matcher::Matched;
use pack::{Header, TileKey};

// Nothing; tell that there is no pack; fetch the header; go on towards a tile; match a fix; work out the road of a match; drop a road that is due without one; leave the map.
#[derive(Clone, Copy)]
pub enum Plan {
    Rest,
    NoPack,
    Header,
    Need(TileKey),
    Match(Fix),
    Road(Fix, Matched),
    Roadless,
    Off(Fix),
}

// A road is due: of the current match, if there is one.
fn of_road(current: Option<Matched>, fix: Fix) -> Plan
    ensures { result ≡ Plans.of_road current fix }
{
    match current {
        Some(found) => Plan::Road(fix, found),
        None => Plan::Roadless,
    }
}

// What is due at a fix in the grid.
fn of_due(fix: Fix, due: Due, current: Option<Matched>) -> Plan
    ensures { result ≡ Plans.of_due fix due current }
{
    if due.matching {
        return Plan::Match(fix);
    }
    if due.road {
        return of_road(current, fix);
    }
    Plan::Rest
}

// What is to be done at a fix.
fn of_fix(header: Header, fix: Fix, due: Due, current: Option<Matched>) -> Plan
    ensures { result ≡ Plans.of_fix (key_of header fix.lat fix.lon) fix due current }
{
    match pack::grid::key_of(header, fix.lat, fix.lon) {
        None => Plan::Off(fix),
        Some(_) => of_due(fix, due, current),
    }
}

// What is to be done without a tile.
fn of_sight(header: Header, fix: Option<Fix>, due: Due, current: Option<Matched>) -> Plan
    ensures { result ≡ Plans.of_sight fix header due current }
{
    match fix {
        None => Plan::Rest,
        Some(at) => of_fix(header, at, due, current),
    }
}

// What is to be done with a pack that is read.
fn of_need(header: Header, fix: Option<Fix>, due: Due, current: Option<Matched>) -> Plan
    ensures { result ≡ Plans.of_need due.need header fix due current }
{
    let need = due.need;
    match need {
        Some(key) => Plan::Need(key),
        None => of_sight(header, fix, due, current),
    }
}

pub(crate) fn of_state(
    phase: Phase,
    header: Header,
    fix: Option<Fix>,
    due: Due,
    current: Option<Matched>,
) -> Plan
    ensures { result ≡ Plans.of_state phase header fix due current }
{
    match phase {
        Phase::Failed => Plan::NoPack,
        Phase::Unread => Plan::Header,
        Phase::Ready => of_need(header, fix, due, current),
    }
}
