// The map: which stretch of core is each room's. It is read from numbers, passed whole, and tested against its rule (01, "The desk"
// and refusal 3).
#![tactic(auto)]

ghost use Rattle.std.specs.Prelude.{◌≡◌, ◌+◌, ◌<◌, length, drop, slice_index_or};
ghost use Rattle.word.specs.Lists.{every, every_two};
ghost use Rattle.word.specs.Limits.{room_count, map_words};
ghost use Rattle.map.specs.Map.{none, stretch_of, map_of, in_core, stretches_apart, map_obeys};
ghost use Rattle.map.specs.HowOrder.{in_order};

use word::Absolute;
use word::limits::{MAP_WORDS, ROOMS};

// A room's part of core: the address of its first word, and how many words it has.
#[derive(Clone, Copy)]
pub struct Stretch {
    pub start: Absolute,
    pub len: u64,
}

// The map that a list start, length, start, length and so on tells.
pub fn read_map(numbers: &[u64]) -> [Stretch; ROOMS]
    ensures { result ≡ map_of numbers.now }
{
    let none = Stretch {
        start: Absolute(0),
        len: 0,
    };
    let mut m = [none; ROOMS];
    for r in 0..ROOMS {
        m[r] = stretch_of(numbers, r);
    }
    m
}

// Whether the map that a list tells obeys its rule. Stretches that stand in the order of their rooms obey without more; others are
// compared with each other.
pub fn map_fits(core: u64, numbers: &[u64]) -> bool
    ensures { result ≡ map_obeys core (map_of numbers.now) }
{
    if numbers.len() == MAP_WORDS && in_order(core, numbers) {
        return true;
    }
    pairs_fit(core, numbers)
}

// Whether each stretch lies inside the core and no two share a word, whatever the numbers are.
pub fn map_obeys(core: u64, m: [Stretch; ROOMS]) -> bool
    ensures { result ≡ map_obeys core m }
{
    all_in_core(core, m) && all_apart(m)
}

// The same of any list, two stretches at a time.
fn pairs_fit(core: u64, numbers: &[u64]) -> bool
    ensures { result ≡ map_obeys core (map_of numbers.now) }
{
    map_obeys(core, read_map(numbers))
}

// Whether each stretch lies inside the core and starts at or behind the end of those before it; an empty one may start anywhere.
// What is left of the core behind them tells it: a stretch that starts past the core has a difference that wraps, and so is over
// it. The loop goes to half the list's length, which the caller knows: so it is short here, and compiled into the caller.
fn in_order(core: u64, numbers: &[u64]) -> bool
    requires { length numbers.now ≡ map_words }
    ensures { result ≡ in_order core 0 (map_of numbers.now) }
{
    let mut left = core;
    for r in 0..numbers.len() / 2 {
        let s = stretch_at(numbers, r);
        let x = std::num::wrapping_sub_u64(core, s.start.0);
        if left < x {
            if s.len != 0 {
                return false;
            }
            if core < x {
                return false;
            }
        } else {
            if x < s.len {
                return false;
            }
            left = x - s.len;
        }
    }
    true
}

// Room r's pair of a list that has it. It stays beside stretch_of, since it is hot and does not ask whether the numbers are there.
pub fn stretch_at(numbers: &[u64], r: usize) -> Stretch
    requires { (r < room_count) × (length numbers.now ≡ map_words) }
    ensures { result ≡ stretch_of numbers.now r }
{
    Stretch {
        start: Absolute(numbers[2 * r]),
        len: numbers[2 * r + 1],
    }
}

// Room r's pair of the list.
fn stretch_of(numbers: &[u64], r: usize) -> Stretch
    requires { r < room_count }
    ensures { result ≡ stretch_of numbers.now r }
{
    let start = word::word_at(numbers, 2 * r);
    let len = word::word_at(numbers, 2 * r + 1);
    Stretch {
        start: Absolute(start),
        len,
    }
}

fn all_in_core(core: u64, m: [Stretch; ROOMS]) -> bool
    ensures { result ≡ every (in_core core) m }
{
    m.iter()
        .all(|s| word::run_within(s.start.0, s.len, 0, core))
}

// Whether each two share no word: each with those after it.
fn all_apart(m: [Stretch; ROOMS]) -> bool
    ensures { result ≡ every_two stretches_apart m }
{
    for (r, &s) in m.iter().enumerate() {
        if !apart_from_later(s, &m[r + 1..]) {
            return false;
        }
    }
    true
}

// Whether the stretch shares no word with one of these.
fn apart_from_later(s: Stretch, later: &[Stretch]) -> bool
    ensures { result ≡ every (stretches_apart s) later.now }
{
    later
        .iter()
        .all(|t| word::runs_apart(s.start.0, s.len, t.start.0, t.len))
}
