// One field of a program word: what it becomes by its modification type, or why it is refused.
#![tactic(auto, using(crate::proofs::Field::fitting), unfolding(crate::specs::Field::field_step, crate::specs::Field::put_back))]

ghost use Rattle.std.specs.Prelude.{◌≡◌, true, false, ◌+◌, ◌<◌, ◌≤◌, ◌^◌};
ghost use Rattle.word.specs.Limits.{core_most};
ghost use Rattle.word.specs.declared.Half.TheVariants.{Left};
ghost use Rattle.word.specs.Word.{lowest, field_of};
ghost use Rattle.lists.specs.Load.{core_tables, io_numbers, Readable};
ghost use Rattle.field.specs.Field.{valued, plus_or_minus, moved_field, table, address_or_length, referred, pair, minus_zero};
ghost use Rattle.field.specs.Field.{short, long, switch, unit, Fits, put_back, assigned_by, field_change, field_step};
ghost use Rattle.field.specs.HowField.{is_long, stepped};

use lists::Given;
use word::faults::{FAULT_19, FAULT_20, FAULT_21};
use word::{Area, Fault, Half, Reference, Relative};

// A value outside 0 to 65,535 is refused (21); a long constant is 64 or more.
pub const VALUE_LIMIT: u64 = 1 << 16;

const LONG_LEAST: u64 = 64;

// What a word becomes where only the word is wanted, and whether by a long type 010, which has nine indicator bits more.
#[derive(Clone, Copy)]
pub struct Stepped {
    pub word: u64,
    pub long: bool,
}

// What the fields of a load's words are changed by, beside its lists: what open was given, and how many of its I/O references are
// of types 0 and 2.
#[derive(Clone, Copy)]
pub struct Assigned {
    pub given: Given,
    pub channels: u64,
}

// The word w with its half h changed by modification type t; x is the nine more indicator bits of a long type 010. A refusal is told
// with its half and with how many of the group's indicator bits stand before that half's own.
pub fn field_step(
    s: Assigned,
    lists: &[u64],
    h: Half,
    bit: u64,
    t: u64,
    w: u64,
    x: u64,
) -> Result<u64, Fault>
    requires { (Readable s.given lists.now) × (w < 2 ^ 36) }
    ensures { result ≡ field_step (assigned_by s lists.now) h bit t w x }
{
    field_change(s, lists, h, t, w, x).map_err(|f| word::in_half(f, h, bit))
}

// The same with the number of a refusal alone (01, "A match over the three-bit modification type decides field position, form and
// refusal for each half"). Only a left half has type 100.
fn field_change(s: Assigned, lists: &[u64], h: Half, t: u64, w: u64, x: u64) -> Result<u64, Fault>
    requires { (Readable s.given lists.now) × (w < 2 ^ 36) }
    ensures { result ≡ field_change (assigned_by s lists.now) h t w x }
{
    let g = s.given;
    let area = g.area;
    let f = word::field(w, h);
    match t {
        0 => put_back(h, w, moved_field(area, Relative(f))),
        1 => put_back(h, w, pair_of(g, lists, f)),
        2 => {
            if word::is_set(f, 15) {
                return put_back(h, w, long_of(g, lists, f, x));
            }
            put_back(h, w, short_of(g, lists, f))
        }
        4 => match h {
            Half::Left => put_a(
                w,
                switch_of(g, lists, s.channels, Reference(word::a_field(w))),
            ),
            Half::Right => Err(FAULT_19),
        },
        7 => put_back(h, w, unit_of(g, lists, s.channels, Reference(f))),
        _ => Err(FAULT_19),
    }
}

// The same where only the word is wanted: none where the field is refused, of which `field_step` tells the rest. Every type that three
// bits tell is spelled out, so that the compiler needs no test before its jump; and it is compiled into its callers, each of which
// has its own half, so that the compiler makes its code for that half alone.
#[inline(always)]
pub fn step(s: Assigned, lists: &[u64], h: Half, t: u64, w: u64, x: u64) -> Option<Stepped>
    requires { (Readable s.given lists.now) × (w < 2 ^ 36) × (t < 8) }
    ensures { result ≡ stepped (is_long t (field_of h w)) (field_change (assigned_by s lists.now) h t w x) }
{
    let g = s.given;
    let area = g.area;
    let held = word::field(w, h);
    match t {
        0 => told(false, put_back(h, w, moved_field(area, Relative(held)))),
        1 => told(false, put_back(h, w, pair_of(g, lists, held))),
        2 => {
            if word::is_set(held, 15) {
                return told(true, put_back(h, w, long_of(g, lists, held, x)));
            }
            told(false, put_back(h, w, short_of(g, lists, held)))
        }
        3 => None,
        4 => match h {
            Half::Left => {
                let k = Reference(word::a_field(w));
                told(false, put_a(w, switch_of(g, lists, s.channels, k)))
            }
            Half::Right => None,
        },
        5 => None,
        6 => None,
        _ => {
            let b = unit_of(g, lists, s.channels, Reference(held));
            told(false, put_back(h, w, b))
        }
    }
}

// Type 000.
fn moved_field(area: Area, r: Relative) -> Result<u64, Fault>
    requires { (area.at.0 ≤ core_most) × (r.0 < 2 ^ 16) }
    ensures { result ≡ moved_field area r }
{
    let a = word::placed(area, r);
    valued_of(a.0)
}

// Type 001: bits 13-7 are the number of the table with the address, bits 6-0 of the one with the length. A call of it, the deepest in
// feed, would take more stack than feed may (tests/stack): it is compiled into its callers.
#[inline(always)]
fn pair_of(g: Given, lists: &[u64], f: u64) -> Result<u64, Fault>
    requires { Readable g lists.now }
    ensures { result ≡ pair (core_tables g lists.now) f }
{
    if word::is_set(f, 15) {
        return Err(FAULT_19);
    }
    let k = Reference(word::bits(f, 13, 7));
    let l = Reference(word::bits(f, 6, 0));
    if l.0 < g.tables {
        let amount = address_or_length(g, lists, true, l);
        return refer(g, lists, false, k, word::is_set(f, 14), amount);
    }
    Err(FAULT_20)
}

// Type 010, short, with bit 15 zero.
fn short_of(g: Given, lists: &[u64], f: u64) -> Result<u64, Fault>
    requires { Readable g lists.now }
    ensures { result ≡ short (core_tables g lists.now) f }
{
    let minus = word::is_set(f, 14);
    let amount = word::bits(f, 5, 0);
    if minus_zero(minus, amount) {
        return Err(FAULT_19);
    }
    let k = Reference(word::bits(f, 12, 6));
    refer(g, lists, word::is_set(f, 13), k, minus, amount)
}

// Type 010, long, with bit 15 set: the number, and whether its length is meant, are in the nine more bits.
fn long_of(g: Given, lists: &[u64], f: u64, x: u64) -> Result<u64, Fault>
    requires { Readable g lists.now }
    ensures { result ≡ long (core_tables g lists.now) f x }
{
    let amount = word::bits(f, 13, 0);
    if amount < LONG_LEAST {
        return Err(FAULT_19);
    }
    if word::is_set(x, 7) {
        return Err(FAULT_19);
    }
    let k = Reference(word::bits(x, 6, 0));
    refer(g, lists, word::is_set(x, 8), k, word::is_set(f, 14), amount)
}

// Type 100: only a left half has it.
fn switch_of(g: Given, lists: &[u64], channels: u64, k: Reference) -> Result<u64, Fault>
    requires { Readable g lists.now }
    ensures { result ≡ switch (io_numbers g lists.now) channels Left k }
{
    if channels <= k.0 {
        return Err(FAULT_20);
    }
    Ok(word::bits(lists::load::io_assigned(g, lists, k), 3, 0))
}

// Type 111: the numbers of the type 3 entries come after those of types 0 and 2.
fn unit_of(g: Given, lists: &[u64], channels: u64, k: Reference) -> Result<u64, Fault>
    requires { Readable g lists.now }
    ensures { result ≡ unit (io_numbers g lists.now) channels k }
{
    if k.0 < channels {
        return Err(FAULT_20);
    }
    if k.0 < g.io {
        return valued_of(lists::load::io_assigned(g, lists, k));
    }
    Err(FAULT_20)
}

// The address of table k, or its length.
fn address_or_length(g: Given, lists: &[u64], sized: bool, k: Reference) -> u64
    requires { (Readable g lists.now) × (k.0 < g.tables) }
    ensures { (result ≡ address_or_length sized (table (core_tables g lists.now) k)) × (result < 2 ^ 24) }
{
    let t = lists::load::core_table(g, lists, k);
    if sized {
        return t.len;
    }
    t.at.0
}

// A table's address or length, plus or minus an amount. The address is absolute already.
fn refer(
    g: Given,
    lists: &[u64],
    sized: bool,
    k: Reference,
    minus: bool,
    amount: u64,
) -> Result<u64, Fault>
    requires { (Readable g lists.now) × (amount < 2 ^ 24) }
    ensures { result ≡ referred (core_tables g lists.now) sized k minus amount }
{
    if k.0 < g.tables {
        return plus_or_minus(minus, address_or_length(g, lists, sized, k), amount);
    }
    Err(FAULT_20)
}

// A form that takes 0 away.
fn minus_zero(minus: bool, amount: u64) -> bool
    ensures { result ≡ minus_zero minus amount }
{
    minus && amount == 0
}

// The sum or the difference, which does not wrap.
fn plus_or_minus(minus: bool, base: u64, amount: u64) -> Result<u64, Fault>
    requires { (base < 2 ^ 24) × (amount < 2 ^ 24) }
    ensures { result ≡ plus_or_minus minus base amount }
{
    if minus {
        if amount <= base {
            return valued_of(base - amount);
        }
        return Err(FAULT_21);
    }
    valued_of(base + amount)
}

// A value from 0 to 65,535, else 21.
fn valued_of(v: u64) -> Result<u64, Fault>
    ensures { result ≡ valued v }
{
    if v < VALUE_LIMIT {
        return Ok(v);
    }
    Err(FAULT_21)
}

// The word with what the field of half h becomes.
fn put_back(h: Half, w: u64, b: Result<u64, Fault>) -> Result<u64, Fault>
    requires { (w < 2 ^ 36) × (Fits 16 b) }
    ensures { result ≡ put_back (lowest h) 16 w b }
{
    Ok(word::store_field(w, h, b?))
}

// The word with what its bits 25-22 become.
fn put_a(w: u64, b: Result<u64, Fault>) -> Result<u64, Fault>
    requires { (w < 2 ^ 36) × (Fits 4 b) }
    ensures { result ≡ put_back 22 4 w b }
{
    Ok(word::store_a(w, b?))
}

// The same where only the word is wanted.
fn told(long: bool, r: Result<u64, Fault>) -> Option<Stepped>
    ensures { result ≡ stepped long r }
{
    r.ok().map(|word| Stepped { word, long })
}
