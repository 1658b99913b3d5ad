// The library that the emulator links: the calls of clamp with C linkage, each under the same clauses, and nothing else.
#![tactic(auto)]

ghost use Rattle.std.specs.Prelude.{◌≡◌, []};
ghost use Rattle.layout.specs.Layout.{desk_words};
ghost use Rattle.calls.specs.Make.{make_of};
ghost use Rattle.calls.specs.Open.{open_of};
ghost use Rattle.calls.specs.Release.{release_of};
ghost use Rattle.feed.specs.Feed.{feed_of};
ghost use Rattle.calls.specs.Answer.{file_packed};
ghost use Rattle.front.specs.Front.{label_block};
ghost use Rattle.clamp.specs.Returned.{Returned, ResealReturned, AssignReturned, needs_answer};

// The fixed length of a desk.
#[unsafe(no_mangle)]
pub extern "C" fn clamp_desk_words() -> u64
    ensures { result ≡ desk_words }
{
    clamp::clamp_desk_words()
}

// A fresh desk, from the core length and the map's numbers.
#[unsafe(no_mangle)]
pub extern "C" fn clamp_make(desk: &mut [u64], core: u64, numbers: &[u64]) -> u64
    ensures { Returned (make_of desk.old core numbers.now) result desk.new [] }
{
    clamp::clamp_make(desk, core, numbers)
}

// A place for a load: its room, its area, its two lists.
#[unsafe(no_mangle)]
pub extern "C" fn clamp_open(
    desk: &mut [u64],
    core: &mut [u64],
    room: u64,
    area: u64,
    size: u64,
    io: &[u64],
    tables: &[u64],
) -> u64
    ensures { Returned (open_of desk.old core.old room
        (record { at = record { 0 = area }; size = size }) io.now tables.now)
        result desk.new core.new }
{
    clamp::clamp_open(desk, core, room, area, size, io, tables)
}

// A place given back.
#[unsafe(no_mangle)]
pub extern "C" fn clamp_release(desk: &mut [u64], core: u64, room: u64, place: u64) -> u64
    ensures { Returned (release_of desk.old core room place) result desk.new [] }
{
    clamp::clamp_release(desk, core, room, place)
}

// A block for a load.
#[unsafe(no_mangle)]
pub extern "C" fn clamp_feed(
    desk: &mut [u64],
    core: &mut [u64],
    room: u64,
    place: u64,
    block: &[u64],
) -> u64
    ensures { Returned (feed_of desk.old core.old room place block.now)
        result desk.new core.new }
{
    clamp::clamp_feed(desk, core, room, place, block)
}

// A block of the checksum rule before #104, sealed anew by the rule in force.
#[unsafe(no_mangle)]
pub extern "C" fn clamp_reseal(block: &mut [u64], index: u64) -> u64
    ensures { ResealReturned index block.old result block.new }
{
    clamp::clamp_reseal(block, index)
}

// What a file needs of the lists, by its label.
#[unsafe(no_mangle)]
pub extern "C" fn clamp_needs(label: &[u64]) -> u64
    ensures { result ≡ file_packed (needs_answer (label_block label.now)) }
{
    clamp::clamp_needs(label)
}

// The two lists for open, from a facility book and the front of a file.
#[unsafe(no_mangle)]
pub extern "C" fn clamp_assign(
    book: &[u8],
    blocks: &[u64],
    io: &mut [u64],
    tables: &mut [u64],
) -> u64
    ensures { AssignReturned book.now blocks.now io.old tables.old
        result io.new tables.new }
{
    clamp::clamp_assign(book, blocks, io, tables)
}
