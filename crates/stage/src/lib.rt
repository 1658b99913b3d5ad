// What a load waits for: its stage, what a block leads to, how the desk keeps a stage in nine numbers, and the ranges that its
// numbers have.
#![tactic(auto)]

ghost use Rattle.std.specs.Prelude.{◌≡◌, ◌&&◌, ◌+◌, ◌≤◌, ◌<◌, length};
ghost use Rattle.lists.specs.Load.{core_tables, Readable};
ghost use Rattle.stage.specs.Stage.{numbers_of, stage_of};
ghost use Rattle.stage.specs.Ranges.{label_counts_fit, bank_fits, section_fits, due_fits, stage_fits};
ghost use Rattle.stage.specs.Record.{record_due, is_over};

use block::Record;
use lists::Given;
use program::{Bank, Segment, TableSection};
use word::{Absolute, Area, Reference, Relative};

// What of the label is still needed: how many I/O references are of types 0 and 2, and how many table sections are to come.
#[derive(Clone, Copy)]
pub struct LabelCounts {
    pub channels: u64,
    pub sections: u64,
}

// What is due at the next word of the program blocks: a section's head or a group of the section. A table section's number is at
// least the one kept with it; the IBANK is kept for the start.
#[derive(Clone, Copy)]
pub enum Due {
    Segment,
    SegmentGroup(Segment),
    Section(Reference, Bank),
    SectionGroup(TableSection, Bank),
}

// What is due next. An entry's block is counted from 0 among the modification blocks, with whether longer tables are forbidden.
#[derive(Clone, Copy)]
pub enum Stage {
    Label,
    Entry(LabelCounts, bool, u64),
    Program(LabelCounts, Due),
    Termination(Bank),
    Complete,
    Broken,
}

// What a block that is not refused leads to.
#[derive(Clone, Copy)]
pub enum Step {
    More(Stage),
    Done(Absolute),
}

// The record that a block must be of.
#[tactic(auto, using(word::proofs::Tests::tests), unfolding(crate::specs::Record::record_due))]
pub fn record_due(s: Stage) -> Record
    ensures { result ≡ record_due s }
{
    match s {
        Stage::Label => Record::Label,
        Stage::Entry(_, _, _) => Record::Modification,
        Stage::Program(_, _) => Record::Program,
        Stage::Termination(_) | Stage::Complete | Stage::Broken => Record::Termination,
    }
}

// Whether no block is due any more (10).
#[tactic(auto, using(word::proofs::Tests::tests), unfolding(crate::specs::Record::is_over))]
pub fn is_over(s: Stage) -> bool
    ensures { result ≡ is_over s }
{
    matches!(s, Stage::Complete | Stage::Broken)
}

// A stage as nine numbers.
#[tactic(auto, using(word::proofs::Tests::tests), unfolding(crate::specs::Stage::numbers_of))]
pub fn stage_numbers(s: Stage) -> [u64; 9]
    ensures { result ≡ numbers_of s }
{
    match s {
        Stage::Label => [0, 0, 0, 0, 0, 0, 0, 0, 0],
        Stage::Entry(c, exact, b) => [1, c.channels, c.sections, b, u64::from(exact), 0, 0, 0, 0],
        Stage::Program(c, due) => due_numbers(c, due),
        Stage::Termination(i) => [6, 0, 0, 0, 0, i.at.0, i.count, 0, 0],
        Stage::Complete => [7, 0, 0, 0, 0, 0, 0, 0, 0],
        Stage::Broken => [8, 0, 0, 0, 0, 0, 0, 0, 0],
    }
}

#[tactic(auto, using(word::proofs::Tests::tests), unfolding(crate::specs::Stage::numbers_of))]
fn due_numbers(c: LabelCounts, due: Due) -> [u64; 9]
    ensures { result ≡ numbers_of (Stage.Program c due) }
{
    match due {
        Due::Segment => [2, c.channels, c.sections, 0, 0, 0, 0, 0, 0],
        Due::SegmentGroup(Segment { ibank: i, dbank: d }) => [
            3, c.channels, c.sections, 0, 0, i.at.0, i.count, d.at.0, d.count,
        ],
        Due::Section(t, i) => [4, c.channels, c.sections, t.0, 0, i.at.0, i.count, 0, 0],
        Due::SectionGroup(t, i) => [
            5, c.channels, c.sections, t.number.0, t.count, i.at.0, i.count, 0, 0,
        ],
    }
}

// The stage that nine numbers of the desk tell.
#[tactic(auto, using(word::proofs::Tests::tests), unfolding(crate::specs::Stage::stage_of))]
pub fn read_stage(n: &[u64]) -> Stage
    requires { length n.now ≡ 9 }
    ensures { result ≡ stage_of n.now }
{
    let tag = n[0];
    let c = LabelCounts {
        channels: n[1],
        sections: n[2],
    };
    let i = Bank {
        at: Relative(n[5]),
        count: n[6],
    };
    let dbank = Bank {
        at: Relative(n[7]),
        count: n[8],
    };
    let section = TableSection {
        number: Reference(n[3]),
        count: n[4],
    };
    match tag {
        0 => Stage::Label,
        1 => Stage::Entry(c, n[4] == 1, n[3]),
        2 => Stage::Program(c, Due::Segment),
        3 => Stage::Program(c, Due::SegmentGroup(Segment { ibank: i, dbank })),
        4 => Stage::Program(c, Due::Section(Reference(n[3]), i)),
        5 => Stage::Program(c, Due::SectionGroup(section, i)),
        6 => Stage::Termination(i),
        7 => Stage::Complete,
        _ => Stage::Broken,
    }
}

// Whether a stage's numbers are in their ranges, by what the load was given and its lists. What is due is tested before its label
// counts, so that the compiled code tells the variants apart once.
#[tactic(auto, using(word::proofs::Tests::tests), unfolding(crate::specs::Ranges::stage_fits))]
pub fn stage_fits(g: Given, lists: &[u64], s: Stage) -> bool
    requires { Readable g lists.now }
    ensures { result ≡ stage_fits g.area (core_tables g lists.now) g.io s }
{
    let area = g.area;
    let io = g.io;
    let tables = g.tables;
    match s {
        Stage::Label | Stage::Complete | Stage::Broken => true,
        Stage::Entry(c, _, b) => {
            label_counts_fit(io, tables, c) && b < modification::entry_blocks(io, tables)
        }
        Stage::Program(c, due) => { due_fits(g, lists, due) && label_counts_fit(io, tables, c) }
        Stage::Termination(i) => bank_fits(area, i),
    }
}

#[tactic(auto, using(word::proofs::Tests::tests), unfolding(crate::specs::Ranges::label_counts_fit))]
fn label_counts_fit(io: u64, tables: u64, c: LabelCounts) -> bool
    ensures { result ≡ label_counts_fit io tables c }
{
    c.channels <= io && c.sections <= tables
}

// Whether a bank lies in the area.
#[tactic(auto, using(word::proofs::Tests::tests), unfolding(crate::specs::Ranges::bank_fits))]
pub fn bank_fits(area: Area, b: Bank) -> bool
    ensures { result ≡ bank_fits area b }
{
    word::run_within(b.at.0, b.count, 0, area.size)
}

#[tactic(auto, using(word::proofs::Tests::tests), unfolding(crate::specs::Ranges::due_fits))]
fn due_fits(g: Given, lists: &[u64], due: Due) -> bool
    requires { Readable g lists.now }
    ensures { result ≡ due_fits g.area (core_tables g lists.now) due }
{
    let area = g.area;
    match due {
        Due::Segment => true,
        Due::SegmentGroup(segment) => {
            bank_fits(area, segment.ibank) && bank_fits(area, segment.dbank)
        }
        Due::Section(_, i) => bank_fits(area, i),
        Due::SectionGroup(t, i) => section_fits(g, lists, t) && bank_fits(area, i),
    }
}

// Whether a table section is of a table that there is, and of no more words than the table has.
#[tactic(auto, using(word::proofs::Tests::tests), unfolding(crate::specs::Ranges::section_fits))]
pub fn section_fits(g: Given, lists: &[u64], t: TableSection) -> bool
    requires { Readable g lists.now }
    ensures { result ≡ section_fits (core_tables g lists.now) t }
{
    t.number.0 < g.tables && t.count <= lists::load::core_table(g, lists, t.number).len
}
