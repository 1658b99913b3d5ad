// The records of a book: whether its bytes are records, and what each says.
#![tactic(auto, unfolding(crate::specs::Book::is_book, crate::specs::Book::is_record, crate::specs::Book::is_kind, crate::specs::Book::record_at, word::specs::Lists::range))]

ghost use Rattle.std.specs.Prelude.{◌≡◌, true, ◌+◌, ◌*◌, ◌≤◌, length};
ghost use Rattle.word.specs.Lists.{every};
ghost use Rattle.book.specs.Book.{record_bytes, between, record_at, is_record, assignment_of, record_count, is_book};
ghost use Rattle.book.specs.HowKept.{kind_read, spelled, Spells};

use crate::{Assignment, Kind};

// The bytes of a record: its letter, six codes, six digits, a newline.
pub const RECORD: usize = 14;

const CODES: usize = 1;

const DIGITS: usize = 7;

const NEWLINE_AT: usize = 13;

const CODE_MOST: u8 = 63;

// How many whole records the bytes are.
pub fn count(book: &[u8]) -> usize
    ensures { result ≡ record_count book.now }
{
    book.len() / RECORD
}

// Whether the bytes are records and no part of one.
pub fn is_book(book: &[u8]) -> bool
    ensures { result ≡ is_book book.now }
{
    book.len() % RECORD == 0 && (0..count(book)).all(|i| is_record(record_at(book, i)))
}

// The bytes of record i.
fn record_at(book: &[u8], i: usize) -> &[u8]
    requires { i * record_bytes + record_bytes ≤ length book.now }
    ensures bytes { result.now ≡ record_at book.now i }
    ensures long { length result.now ≡ record_bytes }
{
    let a = i * RECORD;
    &book[a..a + RECORD]
}

fn is_record(bytes: &[u8]) -> bool
    requires { length bytes.now ≡ record_bytes }
    ensures { result ≡ is_record bytes.now }
{
    kind_of(bytes[0]).is_some()
        && all_between(&bytes[CODES..DIGITS], 0, CODE_MOST)
        && all_between(&bytes[DIGITS..NEWLINE_AT], b'0', b'9')
        && bytes[NEWLINE_AT] == b'\n'
}

// The kind of a letter that is one.
fn kind_of(letter: u8) -> Option<Kind>
    ensures { result ≡ kind_read letter }
{
    match letter {
        b'A' => Some(Kind::Address),
        b'L' => Some(Kind::Length),
        b'P' => Some(Kind::Peripheral),
        _ => None,
    }
}

// Whether each byte is one from low to high.
fn all_between(bytes: &[u8], low: u8, high: u8) -> bool
    ensures { result ≡ every (between low high) bytes.now }
{
    bytes.iter().all(|b| (low..=high).contains(b))
}

// What record i of a book says. Six codes are a word, the first one leftmost.
pub fn read_record(book: &[u8], i: usize) -> Assignment
    requires { (is_book book.now ≡ true) × (i * record_bytes + record_bytes ≤ length book.now) }
    ensures { result ≡ assignment_of (record_at book.now i) }
{
    let bytes = record_at(book, i);
    Assignment {
        kind: kind_of(bytes[0]).unwrap(),
        tag: spelled::<64, 0>(&bytes[CODES..DIGITS]),
        number: spelled::<10, b'0'>(&bytes[DIGITS..NEWLINE_AT]),
    }
}

// The number that bytes spell, the first leftmost: to this base, by what each is over the byte for 0.
fn spelled<const BASE: u64, const ZERO: u8>(bytes: &[u8]) -> u64
    requires { Spells BASE ZERO bytes.now }
    ensures { result ≡ spelled BASE ZERO 0 bytes.now }
{
    let mut n = 0;
    for &b in bytes {
        n = n * BASE + u64::from(b - ZERO);
    }
    n
}
