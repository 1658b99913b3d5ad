// A core word and its fields, the three sorts of number, an area, runs of words, and a fault with its place: what every other crate
// builds on.
#![tactic(auto)]

pub mod faults;
pub mod limits;
pub mod slices;

ghost use Rattle.std.specs.Prelude.{◌≡◌, ◌+◌, ◌<◌, ◌≤◌, ◌^◌, ◌%◌, get_or};
ghost use Rattle.word.specs.Word.{bits, is_set, field_of, field_stored, a_field, a_stored};
ghost use Rattle.word.specs.Fault.{fault, in_half, further};
ghost use Rattle.word.specs.Runs.{within, apart};
ghost use Rattle.word.specs.Sorts.{absolute_of, from_table, right_moved};

// "A core word is 36 bits": a word is below 2^36.
pub const WORD_BITS: usize = 36;

pub const WORD_LIMIT: u64 = 1 << 36;

// What a bit counts: the lowest bit of a left field, and of bits 25-22.
const BIT_18: u64 = 1 << 18;

const BIT_22: u64 = 1 << 22;

// A half of a program word. Its field is bits 33-18 of the left half, bits 15-0 of the right one.
#[derive(Clone, Copy)]
pub enum Half {
    Left,
    Right,
}

// An address counted from the Program Name.
#[derive(Clone, Copy)]
pub struct Relative(pub u64);

// An address in core.
#[derive(Clone, Copy)]
pub struct Absolute(pub u64);

// The number of an I/O reference or of a core table.
#[derive(Clone, Copy)]
pub struct Reference(pub u64);

// The words of core that a load is given. Two areas for one load (#107) change this struct and `placed`.
#[derive(Clone, Copy)]
pub struct Area {
    pub at: Absolute,
    pub size: u64,
}

// Why a call is refused: the number that 01 gives it; and where: the word, the half of it where a field is at fault (else none), and how
// many of the group's indicator bits stand before that half's own. Outside a block these are 0 and none. They stand in the order in
// which a load without fault costs least (docs/DECISIONS.md). Stays a number: 01 and 02 name a refusal by its number alone, and C is
// answered with it (docs/ANSWERS.md); the theorems compare it.
#[derive(Clone, Copy)]
pub struct Fault {
    pub bit: u64,
    pub number: u64,
    pub word: u64,
    pub half: Option<Half>,
}

// A fault of the first word that its reader was given: a reader says no more of its place.
pub fn fault_of(number: u64) -> Fault
    ensures { result ≡ fault number }
{
    Fault {
        number,
        word: 0,
        half: None,
        bit: 0,
    }
}

// The same in a half, before whose indicator so many bits stand.
pub fn in_half(f: Fault, h: Half, bit: u64) -> Fault
    ensures { result ≡ in_half h bit f }
{
    Fault {
        half: Some(h),
        bit,
        ..f
    }
}

// The same as whoever called the reader counts words: what the reader was given starts k words on. The one way in which a place is
// passed up.
pub fn further(k: u64, f: Fault) -> Fault
    requires { k + f.word < 2 ^ 64 }
    ensures { result ≡ further k f }
{
    Fault {
        word: k + f.word,
        ..f
    }
}

// The only way from an address relative to the Program Name to an absolute one: by an area's address.
pub fn placed(area: Area, r: Relative) -> Absolute
    requires { area.at.0 + r.0 < 2 ^ 64 }
    ensures { result ≡ absolute_of area r }
{
    Absolute(area.at.0 + r.0)
}

// An address that counts from a table's first word, as those of a table section's groups do. Stays beside `placed`: a table is no area.
pub fn from_table(at: Absolute, r: Relative) -> Absolute
    requires { at.0 + r.0 < 2 ^ 64 }
    ensures { result ≡ from_table at r }
{
    Absolute(at.0 + r.0)
}

// The word whose right field, a relative address, is made absolute by the area's address: one sum, as the field does not overflow.
pub fn move_right(area: Area, w: u64) -> u64
    requires { (w < 2 ^ 36) × (area.at.0 + w % 65536 < 65536) }
    ensures { result ≡ right_moved area w }
{
    w + area.at.0
}

// The word at place i; 0 past the end, as in the definitions.
pub fn word_at(words: &[u64], i: usize) -> u64
    ensures { result ≡ get_or words.now i 0 }
{
    words.get(i).copied().unwrap_or(0)
}

// Whether n words from a lie inside m words from b. The four may be any numbers: a sum could wrap, these differences cannot.
#[tactic(auto, unfolding(crate::specs::Runs::within))]
pub fn run_within(a: u64, n: u64, b: u64, m: u64) -> bool
    ensures { result ≡ within a n b m }
{
    b <= a && n <= m && a - b <= m - n
}

// Whether n words from a and m words from b share none; an empty run shares none. Differences for the same reason.
#[tactic(auto, unfolding(crate::specs::Runs::apart))]
pub fn runs_apart(a: u64, n: u64, b: u64, m: u64) -> bool
    ensures { result ≡ apart a n b m }
{
    if n == 0 || m == 0 {
        return true;
    }
    // Stays a return: one expression reckons both differences each time, four instructions more for each two areas of a desk.
    if a <= b {
        return n <= b - a;
    }
    m <= a - b
}

// The bits from `high` down to `low`, as 01 counts them: bits(w, 33, 18) is 01's "bits 33-18". With numbers for both it compiles
// to a shift and a mask.
pub fn bits(w: u64, high: u64, low: u64) -> u64
    requires { (low ≤ high) × (high < 63) }
    ensures { result ≡ bits high low w }
{
    (w >> low) % (1 << (high + 1 - low))
}

// Whether bit j is set.
pub fn is_set(w: u64, j: u64) -> bool
    requires { j < 64 }
    ensures { result ≡ is_set j w }
{
    (w >> j) % 2 == 1
}

// The field of a half.
pub fn field(w: u64, h: Half) -> u64
    ensures { result ≡ field_of h w }
{
    match h {
        Half::Left => bits(w, 33, 18),
        Half::Right => bits(w, 15, 0),
    }
}

// The word with v for the field of a half: the old field is taken away and v added, fewer instructions than three parts joined.
pub fn store_field(w: u64, h: Half, v: u64) -> u64
    requires { (w < 2 ^ 36) × (v < 2 ^ 16) }
    ensures { result ≡ field_stored h w v }
{
    match h {
        Half::Left => w - bits(w, 33, 18) * BIT_18 + v * BIT_18,
        Half::Right => w - bits(w, 15, 0) + v,
    }
}

// Bits 25-22, which 001 calls the a-field.
pub fn a_field(w: u64) -> u64
    ensures { result ≡ a_field w }
{
    bits(w, 25, 22)
}

// The word with v for bits 25-22. Stays beside `store_field`: for any bits the proof would be one of powers, and the code no shorter.
pub fn store_a(w: u64, v: u64) -> u64
    requires { (w < 2 ^ 36) × (v < 2 ^ 4) }
    ensures { result ≡ a_stored w v }
{
    w - bits(w, 25, 22) * BIT_22 + v * BIT_22
}
