// The blocks that are read whole: the label, the modification blocks and the termination block. Each leads to what is due next, to
// the start, or to the first fault in reading order.
#![tactic(auto)]

ghost use Rattle.std.specs.Prelude.{◌≡◌, ◌≤◌, length, Ok};
ghost use Rattle.word.specs.Limits.{core_most, words_in_block};
ghost use Rattle.label.specs.Label.{Carried};
ghost use Rattle.lists.specs.Load.{io_numbers, core_tables, Readable};
ghost use Rattle.records.specs.Label.{with_label, label_step};
ghost use Rattle.records.specs.Entries.{entry_step, EntryReady, SpotReady};
ghost use Rattle.records.specs.HowEntries.{entry_read, entries_read};
ghost use Rattle.records.specs.Termination.{termination_step};

use label::Label;
use lists::Given;
use program::Bank;
use stage::{Due, LabelCounts, Stage, Step};
use word::faults::{FAULT_16, FAULT_22};
use word::{Area, Fault, Reference};

// The word of a label that counts its tables and entries, and the word of a termination block that gives the start.
const COUNTS_WORD: u64 = 3;

const START_WORD: u64 = 1;

// The label, compared with the lists that the load was given.
pub fn label_step(g: Given, lists: &[u64], block: &[u64]) -> Result<Step, Fault>
    requires { (Readable g lists.now) × (length block.now ≡ words_in_block) }
    ensures { result ≡ label_step (io_numbers g lists.now) g.tables block.now }
{
    let l = label::read_label(block)?;
    take_label(g, lists, l)
}

// A label that is one: the assignments must fit it, and entries are due if there are any.
fn take_label(g: Given, lists: &[u64], l: Label) -> Result<Step, Fault>
    requires { (Readable g lists.now) × (Carried l) }
    ensures { result ≡ with_label (io_numbers g lists.now) g.tables (Ok l) }
{
    if !modification::assignments_fit(l, g, lists) {
        return Err(word::further(COUNTS_WORD, FAULT_16));
    }
    let c = LabelCounts {
        channels: l.switches + l.channels,
        sections: l.sections,
    };
    if modification::entry_blocks(g.io, g.tables) == 0 {
        return Ok(Step::More(Stage::Program(c, Due::Segment)));
    }
    Ok(Step::More(Stage::Entry(c, l.exact, 0)))
}

// Modification block b, counted from 0.
pub fn entry_step(
    g: Given,
    lists: &[u64],
    c: LabelCounts,
    exact: bool,
    b: u64,
    block: &[u64],
) -> Result<Step, Fault>
    requires { EntryReady g lists.now b block.now }
    ensures { result ≡ entry_step g.io (core_tables g lists.now) c exact b block.now }
{
    read_entries(g, lists, exact, b, block)?;
    let next = b + 1;
    if next < modification::entry_blocks(g.io, g.tables) {
        return Ok(Step::More(Stage::Entry(c, exact, next)));
    }
    Ok(Step::More(Stage::Program(c, Due::Segment)))
}

// Each table's entry, as far as its third word stands in block b: the first that does not fit ends it.
fn read_entries(g: Given, lists: &[u64], exact: bool, b: u64, block: &[u64]) -> Result<(), Fault>
    requires { (Readable g lists.now) × (length block.now ≡ words_in_block) }
    ensures { result ≡ entries_read g.io (core_tables g lists.now) exact b block.now }
{
    for t in 0..g.tables {
        read_entry(g, lists, exact, b, block, t)?;
    }
    Ok(())
}

// The entry of table t: nothing is asked of one whose third word stands in another block.
fn read_entry(
    g: Given,
    lists: &[u64],
    exact: bool,
    b: u64,
    block: &[u64],
    t: u64,
) -> Result<(), Fault>
    requires { SpotReady g lists.now t block.now }
    ensures { result ≡ entry_read g.io (core_tables g lists.now) exact b block.now t }
{
    let s = modification::length_spot(g.io, Reference(t));
    if s.block != b {
        return Ok(());
    }
    let least = modification::minimum_length(block[s.word as usize]);
    let len = lists::load::core_table(g, lists, Reference(t)).len;
    if modification::length_fits(exact, least, len) {
        return Ok(());
    }
    Err(word::further(s.word, FAULT_16))
}

// The termination block: the start must lie in the IBANK.
pub fn termination_step(area: Area, ibank: Bank, block: &[u64]) -> Result<Step, Fault>
    requires { area.at.0 ≤ core_most }
    ensures { result ≡ termination_step area ibank block.now }
{
    let start = program::read_start(block);
    if !program::in_bank(ibank, start) {
        return Err(word::further(START_WORD, FAULT_22));
    }
    Ok(Step::Done(word::placed(area, start)))
}
