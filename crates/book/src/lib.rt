// The facility book (#101): from the numbers that a book gives to tags, and the tags of a file's entries, to open's two lists.
#![tactic(auto, unfolding(crate::specs::HowKept::all_marked))]

pub mod records;
pub mod tags;

ghost use Rattle.std.specs.Prelude.{◌≡◌, ◌==◌, true, length, position, Ok};
ghost use Rattle.word.specs.Lists.{every};
ghost use Rattle.label.specs.Label.{Carried};
ghost use Rattle.book.specs.Book.{assignments_of};
ghost use Rattle.book.specs.Assign.{place_of, in_file, lists_for, assign_by, assign_of, Leaves};
ghost use Rattle.book.specs.HowKept.{kept_words, kept_of, kept_tags, marked, is_mark, not_taken};
ghost use Rattle.book.specs.HowKept.{all_marked, numbers_of, pairs_of, LookReady, LookedReady, TakeReady, MarkReady};
ghost use Rattle.book.specs.HowKept.{FillReady, PairsReady, Marked, Taken, Filled};

use label::Label;
use tags::KEPT_WORDS;
use word::Fault;
use word::faults::{FAULT_24, FAULT_25, FAULT_26, FAULT_27};

// Whose tag a record gives a number: a core entry's address or length, an I/O entry.
#[derive(Clone, Copy)]
pub enum Kind {
    Address,
    Length,
    Peripheral,
}

// What a record of a book says: this tag of this kind is given this number.
#[derive(Clone, Copy)]
pub struct Assignment {
    pub kind: Kind,
    pub tag: u64,
    pub number: u64,
}

// Fills the two lists from the book and the front of a file, or refuses.
pub fn assign(book: &[u8], blocks: &[u64], io: &mut [u64], tables: &mut [u64]) -> Result<(), Fault>
    ensures { Leaves (assign_of book.now blocks.now io.old tables.old)
        result io.new tables.new }
{
    let l = front::read_front(blocks)?;
    assign_by(book, blocks, l, io, tables)
}

// From refusal 24 on.
fn assign_by(
    book: &[u8],
    blocks: &[u64],
    l: Label,
    io: &mut [u64],
    tables: &mut [u64],
) -> Result<(), Fault>
    requires { Carried l }
    ensures { Leaves (assign_by book.now blocks.now (Ok l) io.old tables.old)
        result io.new tables.new }
{
    if io.len() != tags::count_of(l, Kind::Peripheral) {
        return Err(FAULT_24);
    }
    if tables.len() != 2 * tags::count_of(l, Kind::Address) {
        return Err(FAULT_24);
    }
    if !records::is_book(book) {
        return Err(FAULT_24);
    }
    let mut tags = [0u64; KEPT_WORDS];
    tags::read_tags(blocks, l, &mut tags);
    look_up(book, l, &tags, io, tables)
}

// From refusal 25 on, of a file with these tags.
fn look_up(
    book: &[u8],
    l: Label,
    tags: &[u64],
    io: &mut [u64],
    tables: &mut [u64],
) -> Result<(), Fault>
    requires { LookedReady book.now l tags.now io.old tables.old }
    ensures { Leaves (lists_for (kept_tags tags.now l) (assignments_of book.now) io.old tables.old)
        result io.new tables.new }
{
    let mut marks = [0u64; KEPT_WORDS];
    if !take_records(book, l, tags, &mut marks) {
        return not_taken(book, l, tags);
    }
    if !all_given(&marks, l) {
        return Err(FAULT_27);
    }
    write_lists(&marks, l, io, tables);
    Ok(())
}

// Why not every record was taken: 25 comes first, though a 26 may stand before it in the book.
fn not_taken(book: &[u8], l: Label, tags: &[u64]) -> Result<(), Fault>
    requires { LookReady book.now l tags.now }
    ensures { result ≡ not_taken (kept_tags tags.now l) (assignments_of book.now) }
{
    if all_in_file(book, l, tags) {
        return Err(FAULT_26);
    }
    Err(FAULT_25)
}

// Whether an entry has each record's tag.
fn all_in_file(book: &[u8], l: Label, tags: &[u64]) -> bool
    requires { LookReady book.now l tags.now }
    ensures { result ≡ every (in_file (kept_tags tags.now l)) (assignments_of book.now) }
{
    (0..records::count(book)).all(|i| in_file(l, tags, records::read_record(book, i)))
}

fn in_file(l: Label, tags: &[u64], r: Assignment) -> bool
    requires { (Carried l) × (length tags.now ≡ kept_words) }
    ensures { result ≡ in_file (kept_tags tags.now l) r }
{
    tags::kept_of(tags, l, r.kind).contains(&r.tag)
}

// Marks the tags that the records are for, of which none has a mark yet; or answers that one is for none, or two are for one. Which
// fault that is the records behind it may decide, so this tells none (`not_taken`).
fn take_records(book: &[u8], l: Label, tags: &[u64], marks: &mut [u64]) -> bool
    requires { TakeReady book.now l tags.now marks.old }
    ensures { Taken book.now l tags.now result marks.new }
{
    for i in 0..records::count(book) {
        if !take_record(l, tags, records::read_record(book, i), marks) {
            return false;
        }
    }
    true
}

// Marks each place of a record's tag with its number and one; or answers that there is none, or they have a mark.
fn take_record(l: Label, tags: &[u64], r: Assignment, marks: &mut [u64]) -> bool
    requires { MarkReady l tags.now r marks.old }
    ensures { Marked l tags.now r marks.old result marks.new }
{
    let tags = tags::kept_of(tags, l, r.kind);
    let a = tags::start_of(r.kind);
    let marks = &mut marks[a..a + tags.len()];
    let Some(first) = find(tags, r.tag) else {
        return false;
    };
    let old = marks[first];
    if old != 0 {
        return false;
    }
    mark(tags, marks, first, r.tag, r.number + 1);
    true
}

// The first place of a tag, where one has it.
fn find(tags: &[u64], tag: u64) -> Option<usize>
    ensures { result ≡ position (λ t. t == tag) tags.now }
{
    tags.iter().position(|&t| t == tag)
}

// The value, at each place of the tag, of which this is the first.
fn mark(tags: &[u64], marks: &mut [u64], first: usize, tag: u64, value: u64)
    requires { (length tags.now ≡ length marks.old) × (first ≡ place_of tag tags.now) }
    ensures { marks.new ≡ marked tags.now tag value marks.old }
{
    for j in first..tags.len() {
        if tags[j] == tag {
            marks[j] = value;
        }
    }
}

// Whether each tag of the file has its mark.
fn all_given(marks: &[u64], l: Label) -> bool
    requires { (Carried l) × (length marks.now ≡ kept_words) }
    ensures { result ≡ all_marked marks.now l }
{
    kind_given(marks, l, Kind::Peripheral)
        && kind_given(marks, l, Kind::Address)
        && kind_given(marks, l, Kind::Length)
}

fn kind_given(marks: &[u64], l: Label, kind: Kind) -> bool
    requires { (Carried l) × (length marks.now ≡ kept_words) }
    ensures { result ≡ every is_mark (kept_of marks.now l kind) }
{
    !tags::kept_of(marks, l, kind).contains(&0)
}

// The lists, from marks that are all there.
fn write_lists(marks: &[u64], l: Label, io: &mut [u64], tables: &mut [u64])
    requires { FillReady marks.now l io.old tables.old }
    ensures { Filled marks.now l io.new tables.new }
{
    write_numbers(tags::kept_of(marks, l, Kind::Peripheral), io);
    let addresses = tags::kept_of(marks, l, Kind::Address);
    write_pairs(addresses, tags::kept_of(marks, l, Kind::Length), tables);
}

// The numbers of the marks.
fn write_numbers(marks: &[u64], list: &mut [u64])
    requires { (length list.old ≡ length marks.now) × (every is_mark marks.now ≡ true) }
    ensures { list.new ≡ numbers_of marks.now }
{
    for (j, &mark) in marks.iter().enumerate() {
        list[j] = mark - 1;
    }
}

// The numbers of two rows of marks, one of each in turn.
fn write_pairs(addresses: &[u64], lengths: &[u64], list: &mut [u64])
    requires { PairsReady addresses.now lengths.now list.old }
    ensures { list.new ≡ pairs_of addresses.now lengths.now }
{
    for (t, &address) in addresses.iter().enumerate() {
        list[2 * t] = address - 1;
        list[2 * t + 1] = lengths[t] - 1;
    }
}
