// A program word's left half, then its right one, each by its indicator.
ghost use Rattle.std.specs.Prelude.{◌≡◌, ◌≤◌};
ghost use Rattle.field.specs.Field.{assigned_by};
ghost use Rattle.group.specs.HowHalves.{passed_bits, half_of, both_of, HalfReady};

use field::{Assigned, Stepped};
use indicator::{Cursor, NEXT_BIT};
use word::Half;

// A word's left half, then its right one: what the word becomes and the cursor past its indicators; none where one of its fields is
// refused.
pub fn change_word(s: Assigned, lists: &[u64], c: Cursor, w: u64) -> Option<(u64, Cursor)>
    requires { HalfReady s.given lists.now w c 26 }
    ensures { result ≡ both_of (assigned_by s lists.now) w c }
{
    let (v, d) = half(s, lists, Half::Left, c, w)?;
    half(s, lists, Half::Right, d, v)
}

// Compiled into its caller for each half, so that its code is made for that half's bits alone.
#[inline(always)]
fn half(s: Assigned, lists: &[u64], h: Half, c: Cursor, w: u64) -> Option<(u64, Cursor)>
    requires { HalfReady s.given lists.now w c 13 }
    ensures { result ≡ half_of (assigned_by s lists.now) h w c }
{
    if c.ahead < NEXT_BIT {
        return Some((w, indicator::pass_bits(c, 1)));
    }
    let t = word::bits(c.ahead, 62, 60);
    let x = word::bits(c.ahead, 59, 51);
    let d = indicator::pass_bits(c, 4);
    passed(d, field::step(s, lists, h, t, w, x))
}

// What became of a half, and the cursor past its indicator, whose first four bits are passed.
fn passed(c: Cursor, r: Option<Stepped>) -> Option<(u64, Cursor)>
    requires { 9 ≤ c.left }
    ensures { result ≡ passed_bits c r }
{
    let s = r?;
    if s.long {
        return Some((s.word, indicator::pass_bits(c, 9)));
    }
    Some((s.word, c))
}
