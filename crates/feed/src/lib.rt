// Feed: one block for a load, with its refusals in 01's order. Refusals 1, 2, 4 and 9 to 12 change nothing; 13 to 22 set the load's
// area to zero and break the load.
#![tactic(auto)]

ghost use Rattle.std.specs.Prelude.{◌≡◌, ◌<◌, length};
ghost use Rattle.word.specs.Limits.{place_count};
ghost use Rattle.layout.specs.Layout.{desk_words, place_in};
ghost use Rattle.calls.specs.Outcome.{Meets};
ghost use Rattle.lists.specs.Load.{load_of};
ghost use Rattle.sections.specs.Waits.{KeptWaits};
ghost use Rattle.sections.specs.Program.{StepMeets};
ghost use Rattle.feed.specs.Block.{due_step, block_step};
ghost use Rattle.feed.specs.Feed.{load_in, staged, settled_of, taken_of, held_of, feed_of, HeldReady, TakeReady, SettleReady};

use calls::Answer;
use layout::{PLACE_WORDS, PLACES_AT, STAGE_AT};
use lists::Given;
use stage::{Stage, Step};
use word::faults::{FAULT_9, FAULT_10, FAULT_13};
use word::{Area, Fault};

// A block for the load that the room has at the place.
pub fn feed_block(
    desk: &mut [u64],
    core: &mut [u64],
    room: u64,
    place: u64,
    block: &[u64],
) -> Answer
    ensures { Meets (feed_of desk.old core.old room place block.now)
        result desk.new core.new }
{
    if let Err(f) = calls::entry_refusal(desk, core.len() as u64, room) {
        return Answer::Refused(f);
    }
    if !layout::holds_place(desk, room, place) {
        return Answer::Refused(FAULT_9);
    }
    feed_held(desk, core, place as usize, block)
}

// From refusal 10 on: place p is held.
fn feed_held(desk: &mut [u64], core: &mut [u64], p: usize, block: &[u64]) -> Answer
    requires { HeldReady desk.old core.old p }
    ensures { Meets (held_of desk.old core.old p block.now)
        result desk.new core.new }
{
    let s = layout::stage_of(layout::place_at(desk, p));
    if stage::is_over(s) {
        return Answer::Refused(FAULT_10);
    }
    match block::check_block(block, stage::record_due(s)) {
        Ok(()) => take_block(desk, core, p, s, block),
        Err(f) => Answer::Refused(f),
    }
}

// A block that is whole and has its checksum, for the load at place p, which waits for s.
fn take_block(desk: &mut [u64], core: &mut [u64], p: usize, s: Stage, block: &[u64]) -> Answer
    requires { TakeReady desk.old p s block.now core.old }
    ensures { Meets (taken_of desk.old core.old p (load_in (place_in desk.old p)) s
        block.now) result desk.new core.new }
{
    let place = layout::place_at(desk, p);
    let own = layout::own_of(place);
    let g = own.given;
    let r = load_step(g, layout::lists_of(place), s, block, core);
    settle(desk, core, p, g.area, r)
}

// What the block leads to for a load that waits for s.
fn load_step(
    g: Given,
    lists: &[u64],
    s: Stage,
    block: &[u64],
    core: &mut [u64],
) -> Result<Step, Fault>
    requires { KeptWaits g lists.now s block.now core.old }
    ensures { StepMeets (block_step (load_of g lists.now) s block.now core.old)
        result core.new }
{
    if !block::of_record(block, stage::record_due(s)) {
        return Err(FAULT_13);
    }
    due_step(g, lists, s, block, core)
}

// A block of the record that is due.
fn due_step(
    g: Given,
    lists: &[u64],
    s: Stage,
    block: &[u64],
    core: &mut [u64],
) -> Result<Step, Fault>
    requires { KeptWaits g lists.now s block.now core.old }
    ensures { StepMeets (due_step (load_of g lists.now) s block.now core.old)
        result core.new }
{
    match s {
        Stage::Label => records::label_step(g, lists, block),
        Stage::Entry(c, exact, b) => records::entry_step(g, lists, c, exact, b, block),
        Stage::Program(c, due) => sections::items::program_step(g, lists, c, due, block, core),
        Stage::Termination(i) => records::termination_step(g.area, i, block),
        Stage::Complete | Stage::Broken => Ok(Step::More(s)),
    }
}

// The answer, and what the load at place p is left with.
fn settle(
    desk: &mut [u64],
    core: &mut [u64],
    p: usize,
    area: Area,
    r: Result<Step, Fault>,
) -> Answer
    requires { SettleReady desk.old core.old p area }
    ensures { Meets (settled_of desk.old core.old p area r core.old)
        result desk.new core.new }
{
    match r {
        Ok(Step::More(s)) => {
            write_stage(desk, p, s);
            Answer::More
        }
        Ok(Step::Done(a)) => {
            write_stage(desk, p, Stage::Complete);
            Answer::Done(a)
        }
        Err(f) => {
            write_stage(desk, p, Stage::Broken);
            word::slices::clear(core, area.at.0 as usize, area.size as usize);
            Answer::Refused(f)
        }
    }
}

// Place p waits for s.
fn write_stage(desk: &mut [u64], p: usize, s: Stage)
    requires { (length desk.old ≡ desk_words) × (p < place_count) }
    ensures { desk.new ≡ staged desk.old p s }
{
    let n = stage::stage_numbers(s);
    word::slices::copy_in(desk, PLACES_AT + p * PLACE_WORDS + STAGE_AT, &n);
}
