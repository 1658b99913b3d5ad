// A program block, item after item: what is due at a place says how the word there is read.
ghost use Rattle.std.specs.Prelude.{◌≡◌, ◌≤◌};
ghost use Rattle.program.specs.Sections.{last_word};
ghost use Rattle.lists.specs.Load.{load_of};
ghost use Rattle.sections.specs.Waits.{KeptWaits};
ghost use Rattle.sections.specs.Program.{after_last, item_step, program_step, ItemMeets, StepMeets};
ghost use Rattle.sections.specs.HowTurns.{item_of, turn_of, turn_after};

use crate::{Awaited, Item, Onward, Turn, heads};
use field::Assigned;
use group::{GroupEnd, Section};
use lists::Given;
use program::LAST_WORD;
use stage::{Due, LabelCounts, Stage, Step};
use word::{Fault, Reference};

// Where no identifier can stand any more.
const PAST_ITEMS: usize = LAST_WORD + 1;

// A program block for a load with these counts of its label, where due is due, into the core: item after item, from word 1 on.
pub fn program_step(
    g: Given,
    lists: &[u64],
    c: LabelCounts,
    due: Due,
    block: &[u64],
    core: &mut [u64],
) -> Result<Step, Fault>
    requires { KeptWaits g lists.now (Stage.Program c due) block.now core.old }
    ensures { StepMeets (program_step (load_of g lists.now) c due block.now core.old)
        result core.new }
{
    let mut counts = c;
    let mut next = due;
    let mut i: usize = 1;
    // Stays a while loop: an item is as long as what it says, so what was read says where the next one stands.
    while i < PAST_ITEMS {
        if block[i] == 0 {
            return Ok(Step::More(Stage::Program(counts, next)));
        }
        let w = Awaited { counts, due: next };
        match item_step(g, lists, w, block, i, core) {
            Turn::Same(p) => {
                i = p;
            }
            Turn::Go(d, t, p) => {
                counts = d;
                next = t;
                i = p;
            }
            Turn::Last(ibank) => {
                return Ok(Step::More(Stage::Termination(ibank)));
            }
            Turn::Refused(f) => {
                return Err(word::further(i as u64, f));
            }
        }
    }
    Ok(Step::More(Stage::Program(counts, next)))
}

// What stands at place i, where w is awaited: a section's head, or a group of the segment section or of a table section. Each of
// the two calls the group step: with two callers the compiler makes it a function of its own, whose loop then has the registers to
// itself.
fn item_step(g: Given, lists: &[u64], w: Awaited, block: &[u64], i: usize, core: &mut [u64]) -> Turn
    requires { (KeptWaits g lists.now (Stage.Program w.counts w.due) block.now core.old) × (i ≤ last_word) }
    ensures { ItemMeets (item_step (load_of g lists.now) w.counts w.due block.now i
        core.old) (item_of w.counts w.due result) core.new }
{
    let c = w.counts;
    let due = w.due;
    let channels = c.channels;
    let set = Assigned { given: g, channels };
    match due {
        Due::Segment => turn_of(heads::segment_head(g, lists, c, block, i)),
        Due::SegmentGroup(segment) => {
            let ibank = segment.ibank;
            let least = Reference(0);
            let r = group::group_step(set, Section::Segment(segment), lists, block, i, core);
            after_group(c, Onward { least, ibank }, r)
        }
        Due::Section(least, ibank) => {
            let o = Onward { least, ibank };
            turn_of(heads::section_head(g, lists, c, o, block, i))
        }
        Due::SectionGroup(t, ibank) => {
            let number = t.number;
            let count = t.count;
            let table = lists::load::core_table(g, lists, number);
            let above = number.0 + 1;
            let least = Reference(above);
            let r = group::group_step(set, Section::Table(table, count), lists, block, i, core);
            after_group(c, Onward { least, ibank }, r)
        }
    }
}

// A head's item: what was due is never due again.
fn turn_of(it: Item) -> Turn
    ensures { result ≡ turn_of it }
{
    match it {
        Item::Go(c, due, p) => Turn::Go(c, due, p),
        Item::Last(ibank) => Turn::Last(ibank),
        Item::Refused(f) => Turn::Refused(f),
    }
}

// What is due after a group: a group of the same section, or what follows the section's last one.
fn after_group(c: LabelCounts, o: Onward, r: Result<GroupEnd, Fault>) -> Turn
    ensures { result ≡ turn_after c o.least.0 o.ibank r }
{
    match r {
        Ok(e) => {
            if e.last {
                return after_last(c, o, e.past);
            }
            Turn::Same(e.past)
        }
        Err(f) => Turn::Refused(f),
    }
}

// What is due after a section: a table section, or after the last one the termination block.
#[tactic(auto, using(word::proofs::Tests::tests), unfolding(crate::specs::Program::after_last))]
fn after_last(c: LabelCounts, o: Onward, p: usize) -> Turn
    ensures { result ≡ turn_of (after_last c o.least.0 o.ibank p) }
{
    let least = o.least;
    let ibank = o.ibank;
    if c.sections == 0 {
        return Turn::Last(ibank);
    }
    Turn::Go(c, Due::Section(least, ibank), p)
}
