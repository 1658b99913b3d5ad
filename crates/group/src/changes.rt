// The program words of a group, changed word after word: read from the lent block, and each stored into the core once. A group
// without any change is seen by its indicator words alone, words without change are passed many at once, and the commonest change
// has a way of its own. Where a field is refused, nothing here says why (refusals.rt does), so that nothing of a fault is carried
// through the loop.
ghost use Rattle.std.specs.Prelude.{◌≡◌, ◌/◌, ◌<◌, ◌^◌, length};
ghost use Rattle.std.specs.List.{list_all};
ghost use Rattle.field.specs.Field.{assigned_by};
ghost use Rattle.indicator.specs.HowCursor.{group_bits};
ghost use Rattle.group.specs.HowHalves.{moved_word, MovedReady};
ghost use Rattle.group.specs.HowWords.{is_zero, program_in, ChangeReady, Changes, PassReady, Steps};
ghost use Rattle.group.specs.HowWords.{unchanged_step, stored_step};
ghost use Rattle.group.specs.HowLoop.{TurnReady, Turns};

use crate::halves;
use field::{Assigned, VALUE_LIMIT};
use indicator::{Cursor, FEW, NEXT_BIT};
use word::{Area, Half, Relative};

// Of the 64 bits ahead: the next five, where 01000 is no change and then type 000, the commonest change; and what is below where the
// next two are 0, a word without change.
const FIVE_BITS: u64 = 1 << 59;

const MOVED: u64 = 8;

const NO_CHANGE: u64 = 1 << 62;

// Where the loop stands: the cursor before the indicators of the next program word, and that word's number.
#[derive(Clone, Copy)]
pub struct Progress {
    pub cursor: Cursor,
    pub word: usize,
}

// The n program words of a group's words, changed, in the core's words out.
pub fn change_group(
    s: Assigned,
    lists: &[u64],
    words: &[u64],
    n: usize,
    out: &mut [u64],
) -> Option<usize>
    requires { ChangeReady s.given lists.now words.now n out.old }
    ensures { Changes (assigned_by s lists.now) (group_bits words.now n)
        (program_in words.now n) result out.new }
{
    if all_zero(&words[n..]) {
        word::slices::copy_whole(out, &words[..n]);
        return Some(2 * n);
    }
    change_words(s, lists, words, n, out)
}

fn all_zero(numbers: &[u64]) -> bool
    ensures { result ≡ list_all is_zero numbers.now }
{
    numbers.iter().all(|x| *x == 0)
}

// Word after word, from number 0 on. Stays a while loop: a turn goes on by one word or by many.
fn change_words(
    s: Assigned,
    lists: &[u64],
    words: &[u64],
    n: usize,
    out: &mut [u64],
) -> Option<usize>
    requires { ChangeReady s.given lists.now words.now n out.old }
    ensures { Changes (assigned_by s lists.now) (group_bits words.now n)
        (program_in words.now n) result out.new }
{
    let end = words.len();
    let mut c = indicator::start(end, n);
    let mut k = 0;
    while k < n {
        let cursor = indicator::refill(words, n, c);
        let p = change_next(s, lists, words, n, Progress { cursor, word: k }, out)?;
        c = p.cursor;
        k = p.word;
    }
    Some(indicator::place(c, end, n))
}

// From where the loop stands: a run of the commonest change, words without change, or one word.
fn change_next(
    s: Assigned,
    lists: &[u64],
    words: &[u64],
    n: usize,
    p: Progress,
    out: &mut [u64],
) -> Option<Progress>
    requires { TurnReady s.given lists.now (assigned_by s lists.now) words.now n p out.old }
    ensures { Turns (assigned_by s lists.now) words.now n p result out.new }
{
    let c = p.cursor;
    let k = p.word;
    if c.ahead < NEXT_BIT {
        if c.ahead / FIVE_BITS == MOVED {
            return move_words(s, lists, words, n, p, out);
        }
        if c.ahead < NO_CHANGE {
            return pass_unchanged(&words[..n], c, k, out);
        }
    }
    let w = words[k];
    store_word(out, k, halves::change_word(s, lists, c, w))
}

// Words whose indicators are 01000, one after the other, as long as 29 bits are at hand. A loop of its own, since its turns are
// short and the processor foresees them. Stays a while loop: it ends by the indicators, by the words or by the bits at hand.
fn move_words(
    s: Assigned,
    lists: &[u64],
    words: &[u64],
    n: usize,
    p: Progress,
    out: &mut [u64],
) -> Option<Progress>
    requires { (TurnReady s.given lists.now (assigned_by s lists.now) words.now n p out.old)
        × (p.cursor.ahead / 2 ^ 59 ≡ 8) }
    ensures { Turns (assigned_by s lists.now) words.now n p result out.new }
{
    let mut c = p.cursor;
    let mut k = p.word;
    while c.ahead / FIVE_BITS == MOVED {
        if n <= k {
            return Some(Progress { cursor: c, word: k });
        }
        let (moved, d) = moved_word(s.given.area, c, words[k])?;
        out[k] = moved;
        k += 1;
        if d.left <= FEW {
            return Some(Progress { cursor: d, word: k });
        }
        c = d;
    }
    Some(Progress { cursor: c, word: k })
}

// Words without change at once, or the one whose two 0s come next.
fn pass_unchanged(given: &[u64], c: Cursor, k: usize, out: &mut [u64]) -> Option<Progress>
    requires { PassReady given.now c k out.old }
    ensures { Steps (unchanged_step given.now c k out.old) result out.new }
{
    if c.ahead != 0 {
        out[k] = given[k];
        return Some(Progress {
            cursor: indicator::pass_bits(c, 2),
            word: k + 1,
        });
    }
    let m = indicator::unchanged(c, given.len() - k);
    let past = k + m;
    word::slices::copy_in(out, k, &given[k..past]);
    Some(Progress {
        cursor: indicator::pass_plain(c, m),
        word: past,
    })
}

// What became of word number k.
fn store_word(out: &mut [u64], k: usize, r: Option<(u64, Cursor)>) -> Option<Progress>
    requires { (k < length out.old) × (length out.old < 2 ^ 64) }
    ensures { Steps (stored_step k out.old r) result out.new }
{
    let (v, cursor) = r?;
    out[k] = v;
    Some(Progress {
        cursor,
        word: k + 1,
    })
}

// A word whose indicators are 01000: its right field is moved by the area's address.
fn moved_word(area: Area, c: Cursor, w: u64) -> Option<(u64, Cursor)>
    requires { MovedReady area c w }
    ensures { result ≡ moved_word area w c }
{
    let a = word::placed(area, Relative(word::field(w, Half::Right)));
    if a.0 < VALUE_LIMIT {
        return Some((word::move_right(area, w), indicator::pass_bits(c, 5)));
    }
    None
}
