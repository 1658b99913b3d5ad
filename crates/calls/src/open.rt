// Open: a room is given the lowest free place, the area's words are set to zero and the lists are copied, or a refusal of 1, 2, 4
// to 8 says why not (01, "The desk").
ghost use Rattle.std.specs.Prelude.{◌≡◌, ◌<◌, length};
ghost use Rattle.word.specs.Lists.{every};
ghost use Rattle.word.specs.Limits.{room_count};
ghost use Rattle.layout.specs.Layout.{desk_words, place_words, places};
ghost use Rattle.calls.specs.Outcome.{Meets};
ghost use Rattle.calls.specs.Entry.{Entered};
ghost use Rattle.calls.specs.Open.{beside_own, area_fits, opened_place, grant_of, open_of, WriteReady};

use crate::Answer;
use layout::{AREA_AT, HOLDER_AT, LISTS_AT, PLACE_WORDS, PLACES_AT, SIZE_AT};
use word::Area;
use word::faults::{FAULT_7, FAULT_8};
use word::limits::{PLACES, TABLES_MOST};

// A place for the room, with this area and these lists.
pub fn open_load(
    desk: &mut [u64],
    core: &mut [u64],
    room: u64,
    area: Area,
    ios: &[u64],
    tables: &[u64],
) -> Answer
    ensures { Meets (open_of desk.old core.old room area ios.now tables.now)
        result desk.new core.new }
{
    if let Err(f) = crate::entry_refusal(desk, core.len() as u64, room) {
        return Answer::Refused(f);
    }
    grant(desk, core, room, area, ios, tables)
}

// From refusal 5 on.
fn grant(
    desk: &mut [u64],
    core: &mut [u64],
    room: u64,
    area: Area,
    ios: &[u64],
    tables: &[u64],
) -> Answer
    requires { Entered desk.old (length core.old) room }
    ensures { Meets (grant_of desk.old core.old room area ios.now tables.now)
        result desk.new core.new }
{
    let h = layout::read_holders(desk);
    if let Err(f) = rooms::place_refusal(&h, room) {
        return Answer::Refused(f);
    }
    if !area_fits(desk, room, area) {
        return Answer::Refused(FAULT_7);
    }
    let mut words = [0u64; TABLES_MOST];
    let Some(n) = lists::take_lists(area, ios, tables, &mut words) else {
        return Answer::Refused(FAULT_8);
    };
    let p = rooms::lowest_free(&h);
    let b = PLACES_AT + p * PLACE_WORDS;
    write_place(
        &mut desk[b..b + PLACE_WORDS],
        room,
        area,
        ios,
        tables,
        &words[..n],
    );
    word::slices::clear(core, area.at.0 as usize, area.size as usize);
    Answer::Opened(p as u64)
}

// Whether the area is not empty, lies in the room's stretch and shares no word with one the room holds.
#[tactic(auto, using(word::proofs::Tests::tests), unfolding(crate::specs::Open::area_fits))]
fn area_fits(desk: &[u64], room: u64, area: Area) -> bool
    requires { (length desk.now ≡ desk_words) × (room < room_count) }
    ensures { result ≡ area_fits desk.now room area }
{
    let m = map::read_map(layout::map_numbers(desk));
    desk::area_in(m[room as usize], area) && all_beside(desk, room, area)
}

// Whether the area shares no word with one the room holds, at any place.
fn all_beside(desk: &[u64], room: u64, area: Area) -> bool
    requires { (length desk.now ≡ desk_words) × (room < room_count) }
    ensures { result ≡ every (beside_own room area) (places desk.now) }
{
    (0..PLACES).all(|p| beside_own(layout::place_at(desk, p), room, area))
}

#[tactic(auto, using(word::proofs::Tests::tests), unfolding(crate::specs::Open::beside_own, layout::specs::Layout::own_of))]
fn beside_own(place: &[u64], room: u64, area: Area) -> bool
    requires { (length place.now ≡ place_words) × (room < room_count) }
    ensures { result ≡ beside_own room area place.now }
{
    place[HOLDER_AT] != room + 1
        || word::runs_apart(place[AREA_AT], place[SIZE_AT], area.at.0, area.size)
}

// The numbers of a place: its own, the stage of a load that waits for its label, and the lists, of whose tables these words are
// kept.
fn write_place(place: &mut [u64], room: u64, area: Area, ios: &[u64], tables: &[u64], words: &[u64])
    requires { WriteReady room area ios.now tables.now words.now place.old }
    ensures { place.new ≡ opened_place room area ios.now tables.now place.old }
{
    let n = tables.len() / 2;
    let own = [
        room + 1,
        area.at.0,
        area.size,
        ios.len() as u64,
        n as u64,
        words.len() as u64,
        0,
        0,
        0,
        0,
        0,
        0,
        0,
        0,
        0,
    ];
    word::slices::copy_in(place, 0, &own);
    lists::load::keep_lists(area, ios, tables, words, &mut place[LISTS_AT..PLACE_WORDS]);
}
