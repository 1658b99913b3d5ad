// The calls of the library that the emulator links, and nothing else: clamp_c gives each of them C linkage. Answers are packed as
// docs/ANSWERS.md says.
#![tactic(auto)]

ghost use Rattle.std.specs.Prelude.{◌≡◌, []};
ghost use Rattle.layout.specs.Layout.{desk_words};
ghost use Rattle.calls.specs.Make.{make_of};
ghost use Rattle.calls.specs.Open.{open_of};
ghost use Rattle.calls.specs.Release.{release_of};
ghost use Rattle.feed.specs.Feed.{feed_of};
ghost use Rattle.calls.specs.Answer.{file_packed};
ghost use Rattle.front.specs.Front.{label_block};
ghost use Rattle.clamp.specs.Returned.{Returned, ResealReturned, AssignReturned, needs_answer};

use calls::files::FileAnswer;
use layout::DESK_WORDS;
use word::{Absolute, Area};

// The fixed length of a desk.
pub fn clamp_desk_words() -> u64
    ensures { result ≡ desk_words }
{
    DESK_WORDS as u64
}

// A fresh desk, from the core length and the map's numbers.
pub fn clamp_make(desk: &mut [u64], core: u64, numbers: &[u64]) -> u64
    ensures { Returned (make_of desk.old core numbers.now) result desk.new [] }
{
    calls::pack(calls::make::make_desk(desk, core, numbers))
}

// A place for a load: its room, its area, its two lists.
pub fn clamp_open(
    desk: &mut [u64],
    core: &mut [u64],
    room: u64,
    area: u64,
    size: u64,
    io: &[u64],
    tables: &[u64],
) -> u64
    ensures { Returned (open_of desk.old core.old room
        (record { at = record { 0 = area }; size = size }) io.now tables.now)
        result desk.new core.new }
{
    let a = Area {
        at: Absolute(area),
        size,
    };
    calls::pack(calls::open::open_load(desk, core, room, a, io, tables))
}

// A place given back.
pub fn clamp_release(desk: &mut [u64], core: u64, room: u64, place: u64) -> u64
    ensures { Returned (release_of desk.old core room place) result desk.new [] }
{
    calls::pack(calls::release::release_place(desk, core, room, place))
}

// A block for a load.
pub fn clamp_feed(desk: &mut [u64], core: &mut [u64], room: u64, place: u64, block: &[u64]) -> u64
    ensures { Returned (feed_of desk.old core.old room place block.now)
        result desk.new core.new }
{
    calls::pack(feed::feed_block(desk, core, room, place, block))
}

// A block of the checksum rule before #104, sealed anew by the rule in force.
pub fn clamp_reseal(block: &mut [u64], index: u64) -> u64
    ensures { ResealReturned index block.old result block.new }
{
    match old_seal::reseal(block, index) {
        Ok(()) => calls::files::pack_file(FileAnswer::Resealed),
        Err(f) => calls::files::pack_file(FileAnswer::Refused(f)),
    }
}

// What a file needs of the lists, by its label.
pub fn clamp_needs(label: &[u64]) -> u64
    ensures { result ≡ file_packed (needs_answer (label_block label.now)) }
{
    match front::read_label_block(label) {
        Ok(l) => calls::files::pack_file(FileAnswer::Needs(front::needs_value(l))),
        Err(f) => calls::files::pack_file(FileAnswer::Refused(f)),
    }
}

// The two lists for open, from a facility book and the front of a file.
pub fn clamp_assign(book: &[u8], blocks: &[u64], io: &mut [u64], tables: &mut [u64]) -> u64
    ensures { AssignReturned book.now blocks.now io.old tables.old
        result io.new tables.new }
{
    match book::assign(book, blocks, io, tables) {
        Ok(()) => calls::files::pack_file(FileAnswer::Assigned),
        Err(f) => calls::files::pack_file(FileAnswer::Refused(f)),
    }
}
