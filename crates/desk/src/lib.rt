// The test of a desk that comes first in every call: whatever memory is lent, it is sound or it is refused.
#![tactic(auto)]

ghost use Rattle.std.specs.Prelude.{◌≡◌, ◌&&◌, ◌||◌, ◌-◌, length, eqb};
ghost use Rattle.rooms.specs.Rooms.{fair};
ghost use Rattle.lists.specs.Load.{Readable};
ghost use Rattle.layout.specs.Layout.{place_words, place_in, lists_in, holders};
ghost use Rattle.desk.specs.Sound.{area_in, counts_fit, load_fits, held_fits, areas_apart, places_fit, sound};
ghost use Rattle.desk.specs.Sound.{SmallStretch, MapTested, HeldNamed, LastHeld, FirstHeld};

use layout::{AREA_AT, CORE_AT, DESK_WORDS, HOLDER_AT, SIZE_AT};
use lists::Given;
use map::Stretch;
use word::Area;
use word::limits::{CORE_MOST, IO_MOST, PLACES, ROOMS, TABLES_MOST};

// Whether a desk is sound. The tests stay returns of their own: the core length is read between the first and the others.
pub fn is_sound(desk: &[u64]) -> bool
    ensures { result ≡ sound desk.now }
{
    if desk.len() != DESK_WORDS {
        return false;
    }
    let core = desk[CORE_AT];
    if core < 1 {
        return false;
    }
    if CORE_MOST < core {
        return false;
    }
    if !map::map_fits(core, layout::map_numbers(desk)) {
        return false;
    }
    holders_fit(desk)
}

// Whether the holders are fair, each held place is in order, and no two held areas share a word.
fn holders_fit(desk: &[u64]) -> bool
    requires { MapTested desk.now }
    ensures { result ≡ (fair (holders desk.now) && places_fit desk.now) }
{
    let h = layout::read_holders(desk);
    if !rooms::fair(&h) {
        return false;
    }
    let mut held = [0usize; PLACES];
    let n = rooms::held_places(&h, &mut held);
    n == 0 || places_fit(desk, &held[..n])
}

// Whether each held place is in order, and no two held areas share a word. Stretches share none, so that only areas of the same
// room can; and no room holds over two places, so that an area is compared with the last one of its room. That place is held as one
// more than its number, 0 for none; an Option in its place was not tried.
fn places_fit(desk: &[u64], held: &[usize]) -> bool
    requires { HeldNamed desk.now held.now }
    ensures { result ≡ places_fit desk.now }
{
    let mut last = [0usize; ROOMS];
    for &p in held {
        let place = layout::place_at(desk, p);
        let r = (place[HOLDER_AT] - 1) as usize;
        if !held_fits(place, map::stretch_at(layout::map_numbers(desk), r)) {
            return false;
        }
        if !apart_from_last(desk, last[r], place) {
            return false;
        }
        last[r] = p + 1;
    }
    true
}

// Whether a place's area shares no word with that of place q - 1, which is held too; where q is 0 there is none.
fn apart_from_last(desk: &[u64], q: usize, place: &[u64]) -> bool
    requires { LastHeld desk.now q place.now }
    ensures { result ≡ (eqb q 0 || areas_apart (place_in desk.now (q - 1)) place.now) }
{
    q == 0 || apart_from_held(layout::place_at(desk, q - 1), place)
}

// The first of the two places is held.
fn apart_from_held(one: &[u64], other: &[u64]) -> bool
    requires { FirstHeld one.now other.now }
    ensures { result ≡ areas_apart one.now other.now }
{
    other[HOLDER_AT] == 0
        || word::runs_apart(one[AREA_AT], one[SIZE_AT], other[AREA_AT], other[SIZE_AT])
}

// Whether a held place is in order, s its room's stretch.
fn held_fits(place: &[u64], s: Stretch) -> bool
    requires { (length place.now ≡ place_words) × (SmallStretch s) }
    ensures { result ≡ held_fits s place.now }
{
    let o = layout::own_of(place);
    let g = o.given;
    area_in(s, g.area) && counts_fit(g) && load_fits(place, g)
}

// Whether an area is not empty and lies in a stretch.
pub fn area_in(s: Stretch, a: Area) -> bool
    ensures { result ≡ area_in s a }
{
    1 <= a.size && word::run_within(a.at.0, a.size, s.start.0, s.len)
}

fn counts_fit(g: Given) -> bool
    ensures { result ≡ counts_fit g }
{
    g.io <= IO_MOST as u64 && g.tables <= TABLES_MOST as u64 && g.kept <= TABLES_MOST as u64
}

// Whether the kept tables and the stage of a held place are in order.
fn load_fits(place: &[u64], g: Given) -> bool
    requires { (length place.now ≡ place_words) × (Readable g (lists_in place.now)) }
    ensures { result ≡ load_fits g place.now }
{
    let numbers = layout::lists_of(place);
    lists::load::kept_fits(g, numbers) && stage::stage_fits(g, numbers, layout::stage_of(place))
}
