// The words that head a section: the segment's four, and a table section's one.
ghost use Rattle.std.specs.Prelude.{◌≡◌, ◌-◌, ◌≤◌};
ghost use Rattle.word.specs.Lists.{every};
ghost use Rattle.lists.specs.Load.{core_tables, Readable};
ghost use Rattle.sections.specs.Waits.{HeadReady};
ghost use Rattle.sections.specs.Heads.{beside_table, banks_fit, segment_step, section_step};

use crate::{Item, Onward};
use lists::Given;
use program::{Bank, LAST_WORD, Segment};
use stage::{Due, LabelCounts};
use word::Reference;
use word::faults::FAULT_17;

// The segment section's four words at place i: 17 where they do not stay in the block, are none, or the banks do not fit.
#[tactic(auto, using(word::proofs::Tests::tests), unfolding(crate::specs::Heads::segment_step, crate::specs::Heads::with_segment))]
pub fn segment_head(g: Given, lists: &[u64], c: LabelCounts, block: &[u64], i: usize) -> Item
    requires { HeadReady g lists.now block.now i }
    ensures { result ≡ segment_step g.area (core_tables g lists.now) c block.now i }
{
    if LAST_WORD < i + 3 {
        return Item::Refused(FAULT_17);
    }
    match program::read_segment(block[i], block[i + 1]) {
        Ok(segment) => {
            if banks_fit(g, lists, segment) {
                let past = i + 4;
                return Item::Go(c, Due::SegmentGroup(segment), past);
            }
            Item::Refused(FAULT_17)
        }
        Err(f) => Item::Refused(f),
    }
}

// A table section's word at place i: 17 where it is none, its number does not rise, or there is no such table or one too short.
#[tactic(auto, using(word::proofs::Tests::tests), unfolding(crate::specs::Heads::section_step, crate::specs::Heads::with_section))]
pub fn section_head(
    g: Given,
    lists: &[u64],
    c: LabelCounts,
    o: Onward,
    block: &[u64],
    i: usize,
) -> Item
    requires { HeadReady g lists.now block.now i }
    ensures { result ≡ section_step (core_tables g lists.now) c o.least.0 o.ibank block.now i }
{
    match program::read_table_section(block[i]) {
        Ok(t) => {
            if t.number.0 < o.least.0 {
                return Item::Refused(FAULT_17);
            }
            if stage::section_fits(g, lists, t) {
                let past = i + 1;
                let ibank = o.ibank;
                return Item::Go(one_fewer(c), Due::SectionGroup(t, ibank), past);
            }
            Item::Refused(FAULT_17)
        }
        Err(f) => Item::Refused(f),
    }
}

// The label's counts with one section fewer to come; there is one where a section is due.
fn one_fewer(c: LabelCounts) -> LabelCounts
    ensures { result ≡ record { channels = c.channels; sections = c.sections - 1 } }
{
    LabelCounts {
        channels: c.channels,
        sections: c.sections.saturating_sub(1),
    }
}

// Whether the banks lie in the area and share no word with each other or a table.
#[tactic(auto, using(word::proofs::Tests::tests, crate::proofs::Ranges::bank_inside), unfolding(crate::specs::Heads::banks_fit))]
fn banks_fit(g: Given, lists: &[u64], segment: Segment) -> bool
    requires { Readable g lists.now }
    ensures { result ≡ banks_fit g.area (core_tables g lists.now) segment }
{
    let i = segment.ibank;
    let d = segment.dbank;
    stage::bank_fits(g.area, i)
        && stage::bank_fits(g.area, d)
        && word::runs_apart(i.at.0, i.count, d.at.0, d.count)
        && bank_beside_tables(g, lists, i)
        && bank_beside_tables(g, lists, d)
}

// Whether a bank in the area shares no word with a table.
fn bank_beside_tables(g: Given, lists: &[u64], bank: Bank) -> bool
    requires { (Readable g lists.now) × (bank.at.0 ≤ g.area.size) }
    ensures { result ≡ every (beside_table g.area bank) (core_tables g lists.now) }
{
    let at = word::placed(g.area, bank.at);
    (0..g.tables).all(|k| {
        let t = lists::load::core_table(g, lists, Reference(k));
        word::runs_apart(at.0, bank.count, t.at.0, t.len)
    })
}
