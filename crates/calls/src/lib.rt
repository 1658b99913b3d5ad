// The calls that give and take places: make, open and release, each with its refusals in 01's order; the answers of all calls, and
// each as one 64-bit number for C; and the refusals that open, feed and release share.
#![tactic(auto)]

pub mod files;
pub mod make;
pub mod open;
pub mod release;

ghost use Rattle.std.specs.Prelude.{◌≡◌};
ghost use Rattle.word.specs.Fault.{half_number, numbered, place_value};
ghost use Rattle.calls.specs.Answer.{together, packed, SmallFault, Small};
ghost use Rattle.calls.specs.Entry.{entry_refusal};

use layout::CORE_AT;
use word::faults::{FAULT_1, FAULT_2};
use word::limits::ROOMS;
use word::{Absolute, Fault, Half};

// 2^32: an answer's code is counted in these, its value is below.
pub const CODE: u64 = 1 << 32;

// What a call answers: a refusal; made; opened, with the place; more; done, with the absolute start; released.
// Stays one enum, its refusals in it: an answer is one of 01's list, and C gets one number.
#[derive(Clone, Copy)]
pub enum Answer {
    Refused(Fault),
    Made,
    Opened(u64),
    More,
    Done(Absolute),
    Released,
}

// Which of refusals 1, 2 and 4 is due to a call on a desk, with a core of that many words, for that room, or none. Compiled into its
// three callers: a Result that is handed over in memory is some 30 instructions more in each call.
#[tactic(auto, using(word::proofs::Tests::tests, crate::proofs::Entry::long_sound), unfolding(crate::specs::Entry::entry_refusal))]
#[inline(always)]
pub fn entry_refusal(desk: &[u64], core: u64, room: u64) -> Result<(), Fault>
    ensures { result ≡ numbered (entry_refusal desk.now core room) }
{
    if !desk::is_sound(desk) {
        return Err(FAULT_1);
    }
    if core != desk[CORE_AT] {
        return Err(FAULT_2);
    }
    if ROOMS as u64 <= room {
        return Err(word::fault_of(4));
    }
    Ok(())
}

// A refusal as one number: its own times 2^32, and its place. The bit is left out.
pub fn pack_fault(f: Fault) -> u64
    requires { SmallFault f }
    ensures { result ≡ together f.number (place_value f) }
{
    let half = f.half;
    f.number * CODE + f.word * 4 + half_number(half)
}

fn half_number(half: Option<Half>) -> u64
    ensures { result ≡ half_number half }
{
    match half {
        None => 0,
        Some(Half::Left) => 1,
        Some(Half::Right) => 2,
    }
}

// The answer as one number: its code times 2^32, and its value.
pub fn pack(a: Answer) -> u64
    requires { Small a }
    ensures { result ≡ packed a }
{
    match a {
        Answer::Refused(f) => pack_fault(f),
        Answer::Made => 64 * CODE,
        Answer::Opened(p) => 65 * CODE + p,
        Answer::More => 66 * CODE,
        Answer::Done(start) => 67 * CODE + start.0,
        Answer::Released => 68 * CODE,
    }
}
