// Who holds the twelve places, and when a room is given one (01, "The desk" and refusals 5 and 6). Holders are lent as a list of
// numbers, one for each place: 0 where it is free, r + 1 where room r holds it.
#![tactic(auto)]

ghost use Rattle.std.specs.Prelude.{◌≡◌, ◌≤◌, ◌<◌, length};
ghost use Rattle.word.specs.Fault.{numbered};
ghost use Rattle.word.specs.Lists.{splice};
ghost use Rattle.word.specs.Limits.{room_count};
ghost use Rattle.rooms.specs.HowTally.{tallied};
ghost use Rattle.rooms.specs.Rooms.{count, free, held, idle, fair, held_places, lowest_free, place_refusal};

use word::Fault;
use word::limits::ROOMS;

// "no room holds over two"
const MOST_HELD: u64 = 2;

// Where holders are counted: slot 0 the free places, slots 1 to 8 the rooms, the last what is no room's.
const STRANGER: usize = ROOMS + 1;

const SLOTS: usize = ROOMS + 2;

// F: how many places are free.
#[tactic(auto, unfolding(crate::specs::Rooms::free))]
pub fn free_places(holders: &[u64]) -> u64
    ensures { result ≡ free holders.now }
{
    how_many(holders, 0)
}

// How many places the room holds.
#[tactic(auto, unfolding(crate::specs::Rooms::held))]
pub fn held_by(holders: &[u64], room: u64) -> u64
    requires { room < room_count }
    ensures { result ≡ held room holders.now }
{
    how_many(holders, room + 1)
}

// H: how many rooms hold none.
pub fn idle_rooms(holders: &[u64]) -> u64
    ensures { result ≡ idle holders.now }
{
    let counts = tally(holders);
    how_many(&counts[1..STRANGER], 0)
}

// Whether each holder is a room's or none, no room holds over two, and F is at least H: where no room holds over two, F places and
// all rooms but H are as many as there are places that are no room's second.
pub fn fair(holders: &[u64]) -> bool
    ensures { result ≡ fair holders.now }
{
    let mut n = [0u64; ROOMS];
    let mut seconds: u64 = 0;
    // Stays a while loop: as a for, this one and the other, the test of a desk took more (docs/DESIGN-PASS.md, "Still to do").
    let mut i: usize = 0;
    while i < holders.len() {
        let h = holders[i];
        i += 1;
        if h != 0 {
            if (ROOMS as u64) < h {
                return false;
            }
            let r = (h - 1) as usize;
            let k = n[r];
            if MOST_HELD <= k {
                return false;
            }
            seconds += k;
            n[r] = k + 1;
        }
    }
    seconds + ROOMS as u64 <= holders.len() as u64
}

// The places that are held, lowest first, at the start of out. Says how many they are.
pub fn held_places(holders: &[u64], out: &mut [usize]) -> usize
    requires { length holders.now ≤ length out.old }
    ensures { (result ≡ length (held_places 0 holders.now))
        × (out.new ≡ splice out.old 0 (held_places 0 holders.now)) }
{
    let mut n: usize = 0;
    // Stays a while loop: as a for, this one and the other, the test of a desk took more (docs/DESIGN-PASS.md, "Still to do").
    let mut i: usize = 0;
    while i < holders.len() {
        let h = holders[i];
        i += 1;
        if 0 < h {
            out[n] = i - 1;
            n += 1;
        }
    }
    n
}

// The lowest free place, or the length where none is free.
pub fn lowest_free(holders: &[u64]) -> usize
    ensures { result ≡ lowest_free holders.now }
{
    holders
        .iter()
        .position(|&h| h == 0)
        .unwrap_or(holders.len())
}

// Whether the room is given one more place, or which of refusals 5 and 6 denies it.
pub fn place_refusal(holders: &[u64], room: u64) -> Result<(), Fault>
    requires { room < room_count }
    ensures { result ≡ numbered (place_refusal room holders.now) }
{
    let n = held_by(holders, room);
    if MOST_HELD <= n {
        return Err(word::fault_of(5));
    }
    if n == 1 && free_places(holders) <= idle_rooms(holders) {
        return Err(word::fault_of(6));
    }
    Ok(())
}

// One pass over the holders: how many places are free, how many each room holds, and in the last slot how many holders are no room's.
fn tally(holders: &[u64]) -> [u64; SLOTS]
    ensures { result ≡ tallied holders.now }
{
    let mut n = [0u64; SLOTS];
    for &h in holders {
        n[h.min(STRANGER as u64) as usize] += 1;
    }
    n
}

// How often x stands among the numbers. A loop: `filter(..).count()` took open some 150 to 300 instructions more.
fn how_many(numbers: &[u64], x: u64) -> u64
    ensures { result ≡ count x numbers.now }
{
    let mut n: u64 = 0;
    for &a in numbers {
        n += u64::from(a == x);
    }
    n
}
