// Whether the assignments fit the file (16): the two lists against the label, and each table's length against the modification
// record, with how many words and blocks its entries take and where each minimum length stands.
#![tactic(auto)]

ghost use Rattle.std.specs.Prelude.{◌≡◌, ◌*◌, ◌≤◌, ◌^◌, length};
ghost use Rattle.word.specs.Lists.{every};
ghost use Rattle.lists.specs.HowKept.{numbers_in};
ghost use Rattle.lists.specs.Load.{io_numbers, Readable};
ghost use Rattle.label.specs.Label.{Carried};
ghost use Rattle.modification.specs.Entries.{entry_words, entry_blocks, io_entry, core_entry, spot_of, length_spot};
ghost use Rattle.modification.specs.Entries.{minimum, length_fits};
ghost use Rattle.modification.specs.Assignments.{is_channel, assignments_fit};

use label::Label;
use lists::Given;
use lists::load::IO_WORDS;
use word::Reference;

// "Words 1 to 254 hold entries": how many words of a modification block do.
const ENTRY_WORDS: u64 = 254;

// What a jump switch or a channel may be assigned at most.
const CHANNEL_MOST: u64 = 15;

// A word of the modification record: the block, counted from 0 among the modification blocks, and the word in it.
#[derive(Clone, Copy)]
pub struct Spot {
    pub block: u64,
    pub word: u64,
}

// Whether the lists that a load was given fit the label.
pub fn assignments_fit(l: Label, g: Given, lists: &[u64]) -> bool
    requires { (Carried l) × (Readable g lists.now) }
    ensures { result ≡ assignments_fit l (io_numbers g lists.now) g.tables }
{
    g.io == l.switches + l.channels + l.units
        && g.tables == l.tables
        && channels_fit(&lists[..IO_WORDS], l.switches + l.channels)
}

// Whether each of the first m I/O numbers is one for a jump switch or a channel.
fn channels_fit(ios: &[u64], m: u64) -> bool
    requires { m ≤ 4 * length ios.now }
    ensures { result ≡ every is_channel (numbers_in ios.now m) }
{
    (0..m).all(|k| lists::io_number(ios, Reference(k)) <= CHANNEL_MOST)
}

// How many words the entries of io I/O references and as many core tables take.
pub fn entry_words(io: u64, tables: u64) -> u64
    requires { (io ≤ 2 ^ 16) × (tables ≤ 2 ^ 16) }
    ensures { result ≡ entry_words io tables }
{
    2 * io + 3 * tables
}

// How many modification blocks hold them.
pub fn entry_blocks(io: u64, tables: u64) -> u64
    requires { (io ≤ 2 ^ 16) × (tables ≤ 2 ^ 16) }
    ensures { result ≡ entry_blocks io tables }
{
    entry_words(io, tables).div_ceil(ENTRY_WORDS)
}

// Where entry word k stands, counted from 0 through all entry words.
pub fn spot_of(k: u64) -> Spot
    ensures { result ≡ spot_of k }
{
    Spot {
        block: k / ENTRY_WORDS,
        word: k % ENTRY_WORDS + 1,
    }
}

// The first word of table t's entry, so counted.
pub fn core_entry(io: u64, t: Reference) -> u64
    requires { (io ≤ 2 ^ 16) × (t.0 ≤ 2 ^ 16) }
    ensures { result ≡ core_entry io t }
{
    2 * io + 3 * t.0
}

// The first word of I/O reference r's entry.
pub fn io_entry(r: Reference) -> u64
    requires { r.0 ≤ 2 ^ 16 }
    ensures { result ≡ io_entry r }
{
    2 * r.0
}

// Where the third word of table t's entry stands.
pub fn length_spot(io: u64, t: Reference) -> Spot
    requires { (io ≤ 2 ^ 16) × (t.0 ≤ 2 ^ 16) }
    ensures { result ≡ length_spot io t }
{
    spot_of(core_entry(io, t) + 2)
}

// The minimum length in the third word of an entry.
pub fn minimum_length(w: u64) -> u64
    ensures { result ≡ minimum w }
{
    word::bits(w, 15, 0)
}

// Whether an assigned length agrees with the minimum: where it does not, the refusal is 16.
pub fn length_fits(exact: bool, least: u64, len: u64) -> bool
    ensures { result ≡ length_fits exact least len }
{
    if exact { len == least } else { least <= len }
}
