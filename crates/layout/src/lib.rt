// Where the numbers of a desk stand, and reading them.
#![tactic(auto)]

ghost use Rattle.std.specs.Prelude.{◌≡◌, ◌+◌, ◌<◌, length};
ghost use Rattle.word.specs.Limits.{room_count, place_count};
ghost use Rattle.layout.specs.Layout.{desk_words, place_words, map_numbers, place_in, holders, holds};
ghost use Rattle.layout.specs.Layout.{own_of, stage_in, lists_in};

use lists::Given;
use lists::load::LISTS;
use stage::Stage;
use word::limits::{MAP_WORDS, PLACES};
use word::{Absolute, Area};

// A desk: its core length, the map's numbers, the places.
pub const CORE_AT: usize = 0;

pub const MAP_AT: usize = 1;

pub const PLACES_AT: usize = MAP_AT + MAP_WORDS;

pub const DESK_WORDS: usize = PLACES_AT + PLACES * PLACE_WORDS;

// A place's own numbers.
pub const HOLDER_AT: usize = 0;

pub const AREA_AT: usize = 1;

pub const SIZE_AT: usize = 2;

pub const IO_AT: usize = 3;

pub const TABLES_AT: usize = 4;

pub const KEPT_AT: usize = 5;

// Behind them: those of its stage, and those of its lists.
pub const STAGE_AT: usize = 6;

pub const LISTS_AT: usize = STAGE_AT + 9;

pub const PLACE_WORDS: usize = LISTS_AT + LISTS;

// A place's own numbers: who holds it (0: nobody, r + 1: room r), and what its load was given.
#[derive(Clone, Copy)]
pub struct Place {
    pub holder: u64,
    pub given: Given,
}

// The numbers of place p.
pub fn place_at(desk: &[u64], p: usize) -> &[u64]
    requires { (length desk.now ≡ desk_words) × (p < place_count) }
    ensures { result.now ≡ place_in desk.now p }
{
    let b = PLACES_AT + p * PLACE_WORDS;
    &desk[b..b + PLACE_WORDS]
}

// A place's own numbers.
#[tactic(auto, unfolding(crate::specs::Layout::own_of))]
pub fn own_of(place: &[u64]) -> Place
    requires { length place.now ≡ place_words }
    ensures { result ≡ own_of place.now }
{
    Place {
        holder: place[HOLDER_AT],
        given: Given {
            area: Area {
                at: Absolute(place[AREA_AT]),
                size: place[SIZE_AT],
            },
            io: place[IO_AT],
            tables: place[TABLES_AT],
            kept: place[KEPT_AT],
        },
    }
}

// The stage of the load at a place.
pub fn stage_of(place: &[u64]) -> Stage
    requires { length place.now ≡ place_words }
    ensures { result ≡ stage_in place.now }
{
    stage::read_stage(&place[STAGE_AT..LISTS_AT])
}

// The lists of the load at a place.
pub fn lists_of(place: &[u64]) -> &[u64]
    requires { length place.now ≡ place_words }
    ensures { result.now ≡ lists_in place.now }
{
    &place[LISTS_AT..PLACE_WORDS]
}

// Who holds each place.
pub fn read_holders(desk: &[u64]) -> [u64; PLACES]
    requires { length desk.now ≡ desk_words }
    ensures { result ≡ holders desk.now }
{
    let mut h = [0u64; PLACES];
    for p in 0..PLACES {
        h[p] = desk[PLACES_AT + p * PLACE_WORDS];
    }
    h
}

// Whether the room holds the place; a place over 11 nobody holds.
pub fn holds_place(desk: &[u64], room: u64, place: u64) -> bool
    requires { (length desk.now ≡ desk_words) × (room < room_count) }
    ensures { result ≡ holds desk.now room place }
{
    place < PLACES as u64 && desk[PLACES_AT + place as usize * PLACE_WORDS] == room + 1
}

// The map's numbers.
pub fn map_numbers(desk: &[u64]) -> &[u64]
    requires { length desk.now ≡ desk_words }
    ensures { result.now ≡ map_numbers desk.now }
{
    &desk[MAP_AT..PLACES_AT]
}
