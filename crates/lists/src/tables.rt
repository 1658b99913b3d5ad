// The tables of a lent list, and the words of those that are not empty.
ghost use Rattle.std.specs.Prelude.{◌≡◌, ◌/◌, ◌^◌, ◌<◌, true, length, slice_index_or};
ghost use Rattle.word.specs.Lists.{every};
ghost use Rattle.lists.specs.HowKeep.{has_room, has_words, kept_word};
ghost use Rattle.lists.specs.Obey.{tables_of, no_table};
ghost use Rattle.lists.specs.HowTaking.{Fillable, FillsWords, Gathered};

use crate::{ADDRESS, NUMBER, Table, WRAPPED};
use word::Absolute;

// Table k of a lent list.
pub fn lent_table(tables: &[u64], k: usize) -> Table
    requires { k < length tables.now / 2 }
    ensures { result ≡ slice_index_or (tables_of tables.now) k no_table }
{
    Table {
        at: Absolute(tables[2 * k]),
        len: tables[2 * k + 1],
    }
}

// The numbers that f gives of the tables, in one word by `|`: a test of them all is one test at the end, and the loop has no branch.
pub fn gather<F: Fn(Table) -> u64>(tables: &[u64], f: F) -> u64
    requires { F.IsAlwaysCallable f }
    ensures { Gathered (F.post f) 0 (tables_of tables.now) result }
{
    let mut any: u64 = 0;
    for k in 0..tables.len() / 2 {
        any |= f(lent_table(tables, k));
    }
    any
}

// The words of the tables that are not empty, in the order of the tables, to the start of words; says how many they are.
pub fn fill_words(tables: &[u64], words: &mut [u64]) -> usize
    requires { Fillable (tables_of tables.now) words.old }
    ensures { FillsWords (tables_of tables.now) words.old result words.new }
{
    if none_empty(tables) {
        fill_all(tables, words)
    } else {
        fill_some(tables, words)
    }
}

// Whether no table is empty. One less than a length wraps, and so has its top bit set, only where the length is 0.
fn none_empty(tables: &[u64]) -> bool
    requires { every has_room (tables_of tables.now) ≡ true }
    ensures { result ≡ every has_words (tables_of tables.now) }
{
    gather(tables, |t| t.len.wrapping_sub(1)) < WRAPPED
}

// The words of the tables where none is empty: each stands at its table's number. Stays beside fill_some: its loop has no branch.
fn fill_all(tables: &[u64], words: &mut [u64]) -> usize
    requires { Fillable (tables_of tables.now) words.old × (every has_words (tables_of tables.now) ≡ true) }
    ensures { FillsWords (tables_of tables.now) words.old result words.new }
{
    let n = tables.len() / 2;
    for k in 0..n {
        words[k] = table_word(lent_table(tables, k), k);
    }
    n
}

// The words of the tables that are not empty, whichever these are.
fn fill_some(tables: &[u64], words: &mut [u64]) -> usize
    requires { Fillable (tables_of tables.now) words.old }
    ensures { FillsWords (tables_of tables.now) words.old result words.new }
{
    let mut n: usize = 0;
    for k in 0..tables.len() / 2 {
        let t = lent_table(tables, k);
        if t.len == 0 {
            continue;
        }
        words[n] = table_word(t, k);
        n += 1;
    }
    n
}

// The word that is kept for table k, where that is not empty.
fn table_word(t: Table, k: usize) -> u64
    requires { (t.at.0 < 2 ^ 24) × (t.len < 2 ^ 20) × (k < 2 ^ 20) }
    ensures { result ≡ kept_word k t }
{
    t.at.0 * ADDRESS + k as u64 * NUMBER + t.len
}
