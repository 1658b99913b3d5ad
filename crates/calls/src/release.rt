// Release: a room gives a place back.
ghost use Rattle.std.specs.Prelude.{◌≡◌, []};
ghost use Rattle.calls.specs.Outcome.{Meets};
ghost use Rattle.calls.specs.Release.{release_of};

use crate::Answer;
use layout::{PLACE_WORDS, PLACES_AT};
use word::faults::FAULT_9;

// Room and place, on a desk of a core of that many words: the place is freed, and its area serves again.
pub fn release_place(desk: &mut [u64], core: u64, room: u64, place: u64) -> Answer
    ensures { Meets (release_of desk.old core room place) result desk.new [] }
{
    if let Err(f) = crate::entry_refusal(desk, core, room) {
        return Answer::Refused(f);
    }
    if !layout::holds_place(desk, room, place) {
        return Answer::Refused(FAULT_9);
    }
    desk[PLACES_AT + place as usize * PLACE_WORDS] = 0;
    Answer::Released
}
