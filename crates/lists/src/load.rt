// The lists of a load, in the one slice that the desk keeps of them, read: what stands where says specs/Load.antt.
ghost use Rattle.std.specs.Prelude.{◌≡◌, slice_index};
ghost use Rattle.lists.specs.HowChain.{chain};
ghost use Rattle.lists.specs.Load.{words_in, core_table, io_numbers, kept_lists, Readable, Keepable};

use crate::{Given, Table};
use word::limits::{IO_MOST, TABLES_MOST};
use word::{Area, Reference};

// The places of the I/O numbers, of the kept words and of the ranks, and how many numbers there are in all.
pub const IO_WORDS: usize = 32;

const WORDS: usize = IO_WORDS;

const RANKS: usize = WORDS + TABLES_MOST;

pub const LISTS: usize = RANKS + TABLES_MOST;

// Keeps the lists that are lent to open, whose tables' kept words are these. The I/O numbers are taken into a list of 128 first
// (01, "Reference lists of 128 numbers .. built with repeat arrays"), with zeros past the last, so that every four is a full one.
pub fn keep_lists(area: Area, ios: &[u64], tables: &[u64], words: &[u64], lists: &mut [u64])
    requires { Keepable area ios.now tables.now words.now lists.old }
    ensures { lists.new ≡ kept_lists ios.now tables.now lists.old }
{
    let mut numbers = [0u64; IO_MOST];
    word::slices::copy_in(&mut numbers, 0, ios);
    crate::keeping::keep_numbers(&numbers, ios.len().div_ceil(4), lists);
    word::slices::copy_in(lists, WORDS, words);
    crate::keeping::keep_ranks(tables, words, &mut lists[RANKS..LISTS]);
}

// Core table k of a load; one that it has not is empty.
pub fn core_table(g: Given, lists: &[u64], k: Reference) -> Table
    requires { Readable g lists.now }
    ensures { result ≡ core_table g lists.now k.0 }
{
    let n = g.kept as usize;
    let m = g.tables as usize;
    let area = g.area;
    crate::table_at(&lists[WORDS..WORDS + n], &lists[RANKS..RANKS + m], area, k)
}

// The number assigned to I/O reference k of a load; 0 past the last, as in the definitions.
pub fn io_assigned(g: Given, lists: &[u64], k: Reference) -> u64
    requires { Readable g lists.now }
    ensures { result ≡ slice_index (io_numbers g lists.now) k.0 }
{
    if k.0 < g.io {
        crate::io_number(&lists[..IO_WORDS], k)
    } else {
        0
    }
}

// Whether the kept words of a load's tables lie in its area one after the other.
pub fn kept_fits(g: Given, lists: &[u64]) -> bool
    requires { Readable g lists.now }
    ensures { result ≡ chain g.area (words_in lists.now g.kept) }
{
    let n = g.kept as usize;
    let area = g.area;
    crate::chain_fits(&lists[WORDS..WORDS + n], area)
}
