// Why a group is refused where one of its fields is, and where: 18 comes before any field, else the first field refused tells. The
// words are gone through once more for it, since the loop that changes them (changes.rt) carries nothing of a fault; number and place
// are found here together.
ghost use Rattle.std.specs.Prelude.{◌≡◌, ◌<◌, ◌^◌};
ghost use Rattle.lists.specs.Load.{Readable};
ghost use Rattle.field.specs.Field.{assigned_by};
ghost use Rattle.group.specs.Group.{half_step};
ghost use Rattle.group.specs.HowHalves.{word_of, HalfReady};
ghost use Rattle.group.specs.HowFaults.{first_fault, group_fault, FaultReady};

use field::Assigned;
use indicator::{Cursor, Indicator};
use word::faults::{FAULT_0, FAULT_18};
use word::{Fault, Half};

// The refusal of a group of which a field is refused.
pub fn group_fault(s: Assigned, lists: &[u64], words: &[u64], n: usize) -> Fault
    requires { FaultReady s.given lists.now words.now n }
    ensures { result ≡ group_fault (assigned_by s lists.now) words.now n }
{
    if indicator::count_fits(words, n) {
        return word::further(1, first_fault(s, lists, words, n));
    }
    FAULT_18
}

// The fault of the first field that is refused, its word counted from the first of these; 0 where none is.
fn first_fault(s: Assigned, lists: &[u64], words: &[u64], n: usize) -> Fault
    requires { FaultReady s.given lists.now words.now n }
    ensures { result ≡ first_fault (assigned_by s lists.now) words.now n }
{
    let end = words.len();
    let mut c = indicator::start(end, n);
    for k in 0..n {
        let w = words[k];
        let bit = indicator::place(c, end, n) as u64;
        let full = indicator::refill(words, n, c);
        match word_step(s, lists, bit, full, w) {
            Ok(_) => c = indicator::pass_word(full, w),
            Err(f) => return word::further(k as u64, f),
        }
    }
    FAULT_0
}

// The word w, whose indicators come next, before them so many bits: by its left half and then by its right one.
fn word_step(s: Assigned, lists: &[u64], bit: u64, c: Cursor, w: u64) -> Result<u64, Fault>
    requires { (HalfReady s.given lists.now w c 26) × (bit < 2 ^ 32) }
    ensures { result ≡ word_of (assigned_by s lists.now) bit w c }
{
    let m = indicator::look(c.ahead, word::field(w, Half::Left));
    let d = indicator::pass(c, m);
    let v = half_step(s, lists, Half::Left, bit, m, w)?;
    let r = indicator::look(d.ahead, word::field(w, Half::Right));
    half_step(
        s,
        lists,
        Half::Right,
        bit + indicator::width(m) as u64,
        r,
        v,
    )
}

// A half of the word w by its indicator, before which so many bits stand.
fn half_step(
    s: Assigned,
    lists: &[u64],
    h: Half,
    bit: u64,
    m: Indicator,
    w: u64,
) -> Result<u64, Fault>
    requires { (Readable s.given lists.now) × (w < 2 ^ 36) }
    ensures { result ≡ half_step (assigned_by s lists.now) h bit m w }
{
    match m {
        Indicator::Same => Ok(w),
        Indicator::Change(t) => field::field_step(s, lists, h, bit, t, w, 0),
        Indicator::Long(x) => field::field_step(s, lists, h, bit, 2, w, x),
    }
}
