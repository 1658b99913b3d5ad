// Make: a fresh desk from the core length and a map.
ghost use Rattle.std.specs.Prelude.{◌≡◌, [], length};
ghost use Rattle.word.specs.Limits.{place_count, map_words};
ghost use Rattle.word.specs.Lists.{splice};
ghost use Rattle.layout.specs.Layout.{desk_words, map_at};
ghost use Rattle.calls.specs.Make.{freed, fresh_desk, make_of};
ghost use Rattle.calls.specs.Outcome.{Meets};

use crate::Answer;
use layout::{CORE_AT, DESK_WORDS, MAP_AT, PLACE_WORDS, PLACES_AT};
use word::faults::{FAULT_1, FAULT_2, FAULT_3};
use word::limits::{CORE_MOST, MAP_WORDS, PLACES};

// The core length, the map's numbers and every place free, in a desk that held whatever it held.
#[tactic(auto, using(word::proofs::Tests::tests), unfolding(crate::specs::Make::make_of))]
pub fn make_desk(desk: &mut [u64], core: u64, numbers: &[u64]) -> Answer
    ensures { Meets (make_of desk.old core numbers.now) result desk.new [] }
{
    if desk.len() != DESK_WORDS {
        return Answer::Refused(FAULT_1);
    }
    if core < 1 || CORE_MOST < core {
        return Answer::Refused(FAULT_2);
    }
    if numbers.len() != MAP_WORDS || !map::map_fits(core, numbers) {
        return Answer::Refused(FAULT_3);
    }
    write_fresh(desk, core, numbers);
    Answer::Made
}

// The core length, the map's numbers behind it, and no place held.
fn write_fresh(desk: &mut [u64], core: u64, numbers: &[u64])
    requires { (length desk.old ≡ desk_words) × (length numbers.now ≡ map_words) }
    ensures { desk.new ≡ fresh_desk desk.old core numbers.now }
{
    desk[CORE_AT] = core;
    write_map(desk, numbers);
    clear_places(desk);
}

// The map's numbers. They are taken into a list of their own first: it is known to lie apart from the desk, and so the compiler
// copies two at a time.
fn write_map(desk: &mut [u64], numbers: &[u64])
    requires { (length desk.old ≡ desk_words) × (length numbers.now ≡ map_words) }
    ensures { desk.new ≡ splice desk.old map_at numbers.now }
{
    let mut m = [0u64; MAP_WORDS];
    word::slices::copy_in(&mut m, 0, numbers);
    word::slices::copy_in(desk, MAP_AT, &m);
}

// Every place set free.
fn clear_places(desk: &mut [u64])
    requires { length desk.old ≡ desk_words }
    ensures { desk.new ≡ freed place_count desk.old }
{
    for p in 0..PLACES {
        desk[PLACES_AT + p * PLACE_WORDS] = 0;
    }
}
