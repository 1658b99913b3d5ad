// The label of a program file: its name, its type flag and what it counts; or the first fault in reading order, 14 or 15.
#![tactic(auto)]

pub mod name;

ghost use Rattle.std.specs.Prelude.{◌≡◌, true, length, Err};
ghost use Rattle.word.specs.Fault.{fault, further};
ghost use Rattle.word.specs.Limits.{words_in_block};
ghost use Rattle.label.specs.Tables.{table_word, table_words, is_carried, entries_if, within_limits};
ghost use Rattle.label.specs.HowTables.{may_follow, counted_with, table_read, tables_read, FewEntries};
ghost use Rattle.label.specs.Label.{label_of, finished, program_word_fits};

use word::Fault;
use word::faults::{FAULT_14, FAULT_15};
use word::limits::{IO_MOST, TABLES_MOST};

// The table types carried.
const JUMP_SWITCH: u64 = 0;

const CHANNEL: u64 = 2;

const UNIT: u64 = 3;

const CORE: u64 = 12;

// How many entries jump switches and channels may have together.
const CHANNELS_MOST: u64 = 16;

// The word of the type flag, the one that counts tables and entries, the first table word, the one that counts segments and table
// sections, and the one that repeats the name's first.
const FLAG_WORD: usize = 2;

const COUNTS_WORD: usize = 3;

const TABLE_WORDS: usize = 4;

const SECTIONS_WORD: usize = 253;

const NAME_AGAIN: usize = 255;

// How far the characters of a name have come: before the first, among letters, digits and hyphens, among the spaces at the end;
// or a character that cannot stand there.
#[derive(Clone, Copy)]
pub enum Spelling {
    First,
    Inside,
    Spaces,
    Wrong,
}

// How many entries each table type carried has: jump switches (0), channels (2), units (3), core tables (12).
#[derive(Clone, Copy)]
pub struct Counts {
    pub switches: u64,
    pub channels: u64,
    pub units: u64,
    pub tables: u64,
}

// What later records need of a label: the entries of each table type, whether longer tables are forbidden, and how many table
// sections follow the segment section.
#[derive(Clone, Copy)]
pub struct Label {
    pub switches: u64,
    pub channels: u64,
    pub units: u64,
    pub tables: u64,
    pub exact: bool,
    pub sections: u64,
}

// The label of a block of 256 words.
pub fn read_label(block: &[u64]) -> Result<Label, Fault>
    requires { length block.now ≡ words_in_block }
    ensures { result ≡ label_of block.now }
{
    name::read_name(block[0], block[1])?;
    if word::bits(block[FLAG_WORD], 35, 33) != 1 {
        return Err(word::further(FLAG_WORD as u64, FAULT_14));
    }
    match read_tables(block) {
        Ok(c) => finish(block, c),
        Err(f) => Err(word::further(TABLE_WORDS as u64, f)),
    }
}

// The table words from word 4 on, as many as word 3 counts: the entries of each type, or 15 at the first word that breaks a rule.
fn read_tables(block: &[u64]) -> Result<Counts, Fault>
    requires { length block.now ≡ words_in_block }
    ensures { result ≡ tables_read (table_words block.now) }
{
    let n = word::bits(block[COUNTS_WORD], 28, 18) as usize;
    let mut c = Counts {
        switches: 0,
        channels: 0,
        units: 0,
        tables: 0,
    };
    let mut least: u64 = 0;
    for i in 0..n {
        let w = block[TABLE_WORDS + i];
        match read_table(least, c, w) {
            Ok(d) => {
                c = d;
                least = word::bits(w, 35, 32) + 1;
            }
            Err(f) => return Err(word::further(i as u64, f)),
        }
    }
    Ok(c)
}

// One table word, whose type must be none below the least: the counts with its entries, or 15.
fn read_table(least: u64, c: Counts, w: u64) -> Result<Counts, Fault>
    requires { within_limits c ≡ true }
    ensures { result ≡ table_read least c (table_word w) }
{
    if !may_follow(least, w) {
        return Err(FAULT_15);
    }
    let d = count_with(c, w);
    if !within_limits(d) {
        return Err(FAULT_15);
    }
    Ok(d)
}

// One table word: its type must be carried and none below the least, its entries some.
#[tactic(auto, using(word::proofs::Tests::tests), unfolding(crate::specs::HowTables::may_follow))]
fn may_follow(least: u64, w: u64) -> bool
    ensures { result ≡ may_follow least (table_word w) }
{
    let t = word::bits(w, 35, 32);
    least <= t && word::bits(w, 8, 0) != 0 && is_carried(t)
}

#[tactic(auto, using(word::proofs::Tests::tests), unfolding(crate::specs::Tables::is_carried))]
fn is_carried(t: u64) -> bool
    ensures { result ≡ is_carried t }
{
    matches!(t, JUMP_SWITCH | CHANNEL | UNIT | CORE)
}

// The counts, and the entries of one table more.
fn count_with(c: Counts, w: u64) -> Counts
    requires { FewEntries c }
    ensures { result ≡ counted_with c (table_word w) }
{
    Counts {
        switches: c.switches + entries_if(w, JUMP_SWITCH),
        channels: c.channels + entries_if(w, CHANNEL),
        units: c.units + entries_if(w, UNIT),
        tables: c.tables + entries_if(w, CORE),
    }
}

// The entries of a table word, where it is of type t.
fn entries_if(w: u64, t: u64) -> u64
    ensures { result ≡ entries_if t (table_word w) }
{
    if word::bits(w, 35, 32) == t {
        word::bits(w, 8, 0)
    } else {
        0
    }
}

#[tactic(auto, using(word::proofs::Tests::tests), unfolding(crate::specs::Tables::within_limits))]
fn within_limits(c: Counts) -> bool
    requires { FewEntries c }
    ensures { result ≡ within_limits c }
{
    c.switches + c.channels <= CHANNELS_MOST
        && c.switches + c.channels + c.units <= IO_MOST as u64
        && c.tables <= TABLES_MOST as u64
}

// What is read after the table words: the entry total, word 253 and word 255.
fn finish(block: &[u64], c: Counts) -> Result<Label, Fault>
    requires { (length block.now ≡ words_in_block) × (FewEntries c) }
    ensures { result ≡ finished block.now c }
{
    let w = block[COUNTS_WORD];
    if c.switches + c.channels + c.units + c.tables != word::bits(w, 10, 0) {
        return bad_at(COUNTS_WORD);
    }
    let p = block[SECTIONS_WORD];
    if !program_word_fits(p, c.tables) {
        return bad_at(SECTIONS_WORD);
    }
    if block[NAME_AGAIN] != block[0] {
        return bad_at(NAME_AGAIN);
    }
    Ok(Label {
        switches: c.switches,
        channels: c.channels,
        units: c.units,
        tables: c.tables,
        exact: word::is_set(w, 35),
        sections: word::bits(p, 15, 0),
    })
}

// 15 at word k.
fn bad_at(k: usize) -> Result<Label, Fault>
    ensures { result ≡ Err (further k (fault 15)) }
{
    Err(word::further(k as u64, FAULT_15))
}

// Word 253: its other bits zero, one segment, no more table sections than core tables.
#[tactic(auto, using(word::proofs::Tests::tests), unfolding(crate::specs::Label::program_word_fits))]
fn program_word_fits(w: u64, tables: u64) -> bool
    ensures { result ≡ program_word_fits w tables }
{
    word::bits(w, 35, 34) == 0
        && word::bits(w, 17, 16) == 0
        && word::bits(w, 33, 18) == 1
        && word::bits(w, 15, 0) <= tables
}
