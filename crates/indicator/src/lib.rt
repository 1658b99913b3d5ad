// An indicator: what is to be done with a half of a program word; and the indicators of a group read fast, straight from the
// group's words: the next 64 bits are held in one number, and where all of them are 0 many words without change are passed at once.
// A group's words are its program words, the first n, and its indicator words after them.
#![tactic(auto, using(word::proofs::Tests::tests), unfolding(crate::specs::HowCursor::beyond, crate::specs::HowCursor::look_of, crate::specs::HowCursor::plain_words))]

ghost use Rattle.std.specs.Prelude.{◌≡◌, ◌+◌, ◌-◌, ◌*◌, ◌≤◌, ◌<◌, ◌^◌, length};
ghost use Rattle.word.specs.Lists.{range};
ghost use Rattle.indicator.specs.Indicator.{width_of, after_all, just_enough};
ghost use Rattle.indicator.specs.HowCursor.{beyond, group_bits, start_cursor, place_of, look_of, past_bits, past_of, past_field};
ghost use Rattle.indicator.specs.HowCursor.{past_word, refilled, plain_words, past_plain, RefillReady, PlaceReady, CountReady};

use word::{Half, WORD_BITS};

// The next bit, first of the 64 at hand: 0 for no change.
pub const NEXT_BIT: u64 = 1 << 63;

// How many bits at hand leave room for a word behind them: 64 less 36.
pub const FEW: usize = 28;

// More bits than any group reads.
const ENDLESS: usize = 1 << 16;

// No change; a change of a three-bit type; type 010 with its nine bits more.
#[derive(Clone, Copy)]
pub enum Indicator {
    Same,
    Change(u64),
    Long(u64),
}

// The next 64 bits, the first one leftmost, as far as the indicator words taken so far have them, and 0s behind those; how many
// bits are left of these words, where the 0s behind the last word count as bits without end, so that one comparison tells whether a
// word is to be taken; and the place that the words taken start at.
#[derive(Clone, Copy)]
pub struct Cursor {
    pub ahead: u64,
    pub left: usize,
    pub next: usize,
}

// Before the first bit of the words from place n up to place end.
pub fn start(end: usize, n: usize) -> Cursor
    ensures { result ≡ start_cursor end n }
{
    Cursor {
        ahead: 0,
        left: beyond_last(n, end),
        next: end,
    }
}

// The bits behind the words from place next on: none, unless these are all.
fn beyond_last(n: usize, next: usize) -> usize
    ensures { result ≡ beyond n next }
{
    if next <= n { ENDLESS } else { 0 }
}

// The place of the next bit.
#[tactic(auto, using(crate::proofs::Reading::beyond_most))]
pub fn place(c: Cursor, end: usize, n: usize) -> usize
    requires { PlaceReady c end n }
    ensures { result ≡ place_of end n c }
{
    WORD_BITS * (end - c.next) + beyond_last(n, c.next) - c.left
}

// The indicator that comes next, of a field that holds f.
pub fn look(ahead: u64, f: u64) -> Indicator
    ensures { result ≡ look_of ahead f }
{
    if ahead < NEXT_BIT {
        return Indicator::Same;
    }
    let t = word::bits(ahead, 62, 60);
    if t == 2 && word::is_set(f, 15) {
        Indicator::Long(word::bits(ahead, 59, 51))
    } else {
        Indicator::Change(t)
    }
}

// How many bits an indicator has.
pub fn width(m: Indicator) -> usize
    ensures { result ≡ width_of m }
{
    match m {
        Indicator::Same => 1,
        Indicator::Change(_) => 4,
        Indicator::Long(_) => 13,
    }
}

// Past k bits.
pub fn pass_bits(c: Cursor, k: usize) -> Cursor
    requires { (k ≤ c.left) × (k < 64) }
    ensures { result ≡ past_bits c k }
{
    Cursor {
        ahead: c.ahead << k,
        left: c.left - k,
        next: c.next,
    }
}

// Past an indicator.
#[tactic(auto, using(crate::proofs::Places::width_most), unfolding(crate::specs::HowCursor::past_of))]
pub fn pass(c: Cursor, m: Indicator) -> Cursor
    requires { 13 ≤ c.left }
    ensures { result ≡ past_of c m }
{
    pass_bits(c, width(m))
}

// Past the indicator of a field that holds f.
#[tactic(auto, unfolding(crate::specs::HowCursor::past_field))]
fn pass_field(c: Cursor, f: u64) -> Cursor
    requires { 13 ≤ c.left }
    ensures { result ≡ past_field c f }
{
    pass(c, look(c.ahead, f))
}

// Past a program word's two indicators.
#[tactic(auto, using(crate::proofs::Reading::past_left), unfolding(crate::specs::HowCursor::past_word))]
pub fn pass_word(c: Cursor, w: u64) -> Cursor
    requires { 26 ≤ c.left }
    ensures { result ≡ past_word c w }
{
    let next = pass_field(c, word::field(w, Half::Left));
    pass_field(next, word::field(w, Half::Right))
}

// One indicator word more where fewer than 29 bits are at hand; a program word's two indicators need 26 at most.
pub fn refill(words: &[u64], n: usize, c: Cursor) -> Cursor
    requires { RefillReady words.now n c }
    ensures { result ≡ refilled words.now n c }
{
    if FEW < c.left {
        return c;
    }
    let next = c.next - 1;
    let w = words[next];
    Cursor {
        ahead: c.ahead + (w << (FEW - c.left)),
        left: c.left + WORD_BITS + beyond_last(n, next),
        next,
    }
}

// How many of this many program words have no change, where all the bits at hand are 0: two bits each.
pub fn unchanged(c: Cursor, most: usize) -> usize
    ensures { result ≡ plain_words c most }
{
    (c.left / 2).min(most)
}

// Past this many words without change.
pub fn pass_plain(c: Cursor, k: usize) -> Cursor
    requires { 2 * k ≤ c.left }
    ensures { result ≡ past_plain c k }
{
    Cursor {
        ahead: 0,
        left: c.left - 2 * k,
        next: c.next,
    }
}

// Whether n indicator words are just as many as the bits need.
pub fn just_enough(bits: usize, n: usize) -> bool
    requires { (bits + 36 < 2 ^ 64) × (36 * n < 2 ^ 64) }
    ensures { result ≡ just_enough bits n }
{
    bits <= WORD_BITS * n && WORD_BITS * n < bits + WORD_BITS
}

// Whether the indicators of the n program words of a group need just the words after these.
pub fn count_fits(words: &[u64], n: usize) -> bool
    requires { CountReady words.now n }
    ensures { result ≡ just_enough (after_all (group_bits words.now n) 0 (range words.now 0 n))
        (length words.now - n) }
{
    let end = words.len();
    let mut c = start(end, n);
    for k in 0..n {
        c = pass_word(refill(words, n, c), words[k]);
    }
    just_enough(place(c, end, n), end - n)
}
