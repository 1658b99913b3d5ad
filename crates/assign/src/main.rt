// The assign program (#101): reads a facility book, and a program file of octal lines from standard input, and prints the two lists
// that the book gives the file, or the refusal.
#![tactic(auto)]

ghost use Rattle.std.specs.Prelude.{◌≤◌};
ghost use Rattle.word.specs.Limits.{io_most, tables_most};
ghost use Rattle.label.specs.Label.{Carried};

use block::BLOCK_WORDS;
use console::Input;
use label::Label;
use std::env::FillError;
use std::io;
use std::rt::{Env, Files};
use word::limits::{IO_MOST, TABLES_MOST};

// "A book of more than 57,344 bytes (4,096 records): input bad": there is room for one byte more, by which such a book is known.
const BOOK_MOST: usize = 57344;

const BOOK_ROOM: usize = BOOK_MOST + 1;

// The label, and the modification blocks that it makes due at most: 128 entries of two words and 128 of three take three.
const FRONT_BLOCKS: usize = 4;

const FRONT_WORDS: usize = FRONT_BLOCKS * BLOCK_WORDS;

const PAIRS_MOST: usize = 2 * TABLES_MOST;

// Room for any path.
const NAME_ROOM: usize = 4096;

// The beginning of a line.
const USAGE: &str = "usage: assign BOOK <FILE";

// A line: a text and a list, with a blank before each number.
fn say_list(rt: &impl Print, text: &str, list: &[u64]) -> io::Result<()> {
    print!(rt; "{text}")?;
    for n in list {
        print!(rt; " ")?;
        print!(rt; "{n}")?;
    }
    println!(rt)
}

// Block n of the input, kept where there is room for it. The others are read to see whether they are bad.
fn read_next(rt: &impl io::Input, kept: &mut [u64], n: usize) -> Input {
    if n < kept.len() / BLOCK_WORDS {
        let a = BLOCK_WORDS * n;
        return console::read_block(rt, &mut kept[a..a + BLOCK_WORDS]);
    }
    let mut other = [0u64; BLOCK_WORDS];
    console::read_block(rt, &mut other)
}

// How many blocks the whole input has; none, if it is bad. A proved loop has to end, and nothing says that the input does: it ends where
// the numbers do.
fn read_input(rt: &impl io::Input, kept: &mut [u64]) -> Option<usize> {
    for n in 0..usize::MAX {
        match read_next(rt, kept, n) {
            Input::End => return Some(n),
            Input::Bad => return None,
            Input::Block => {}
        }
    }
    Some(usize::MAX)
}

// The first n blocks, or all where there are no more. (A part that is written with its start, as here, asks for no proof file.)
fn first_blocks(blocks: &[u64], n: usize) -> &[u64] {
    if blocks.len() / BLOCK_WORDS <= n {
        return blocks;
    }
    &blocks[0..BLOCK_WORDS * n]
}

// Prints the lists that the book gives the file with this front, or the refusal. The two that are lent are as long as the lists.
fn say_lists(
    rt: &impl Print,
    book: &[u8],
    front: &[u64],
    io: &mut [u64],
    tables: &mut [u64],
) -> io::Result<()> {
    match book::assign(book, front, io, tables) {
        Ok(()) => {
            say_list(rt, "io", io)?;
            say_list(rt, "tables", tables)
        }
        Err(f) => console::say_line(rt, "refused ", f.number),
    }
}

// The same, for a label that has so many I/O entries and core entries.
fn assign_front(
    rt: &impl Print,
    book: &[u8],
    front: &[u64],
    io: usize,
    tables: usize,
) -> io::Result<()>
    requires { (io ≤ io_most) × (tables ≤ tables_most) }
{
    let mut numbers = [0u64; IO_MOST];
    let mut pairs = [0u64; PAIRS_MOST];
    say_lists(
        rt,
        book,
        front,
        &mut numbers[0..io],
        &mut pairs[0..2 * tables],
    )
}

// Lends the blocks that the label makes due, as far as they are there.
fn assign_label(rt: &impl Print, book: &[u8], blocks: &[u64], l: Label) -> io::Result<()>
    requires { Carried l }
{
    let io = l.switches + l.channels + l.units;
    let due = 1 + modification::entry_blocks(io, l.tables);
    assign_front(
        rt,
        book,
        first_blocks(blocks, due as usize),
        io as usize,
        l.tables as usize,
    )
}

// Where there is no good label, that is what is refused: it is lent alone, with no lists.
fn assign_blocks(rt: &impl Print, book: &[u8], blocks: &[u64]) -> io::Result<()> {
    let first = first_blocks(blocks, 1);
    match front::read_label_block(first) {
        Ok(l) => assign_label(rt, book, blocks, l),
        Err(_) => assign_front(rt, book, first, 0, 0),
    }
}

// The input is read to its end before anything is printed.
fn assign_input(rt: &(impl io::Input + Print), book: &[u8]) -> io::Result<()> {
    let mut kept = [0u64; FRONT_WORDS];
    match read_input(rt, &mut kept) {
        Some(n) => assign_blocks(rt, book, first_blocks(&kept, n)),
        None => console::say_bad(rt),
    }
}

// The book is read before the input, which is left alone where there is no book to read or it is too long.
fn assign_named(rt: &(impl Files + io::Input + Print), name: &[u8]) -> io::Result<()> {
    let mut book = [0u8; BOOK_ROOM];
    let Some(n) = console::read_file(rt, name, &mut book) else {
        print!(rt; "{USAGE}")?;
        print!(rt; "; cannot read ")?;
        rt.write_all(name)?;
        return println!(rt);
    };
    if BOOK_MOST < n {
        return console::say_bad(rt);
    }
    assign_input(rt, &book[0..n])
}

// Whether the program was given argument i. No room is lent for it: one that is there does not fit, or is empty.
fn has_argument(rt: &impl Env, i: usize) -> bool {
    !matches!(rt.arg(i, &mut []), Err(FillError::NotPresent))
}

// Argument 0 is the program's own name. A name that is longer than any path is taken for an empty one, which no file has.
fn main(rt: HostRuntime) -> io::Result<()> {
    if !has_argument(&rt, 1) || has_argument(&rt, 2) {
        print!(rt; "{USAGE}")?;
        return println!(rt);
    }
    let mut name = [0u8; NAME_ROOM];
    let n = rt.arg(1, &mut name).unwrap_or(0);
    assign_named(&rt, &name[..n])
}
