// The load printer: feeds room 0 the blocks on standard input, 256 lines of 12 octal digits each, and prints what is answered to
// each (01, "The hand deck").
#![tactic(auto)]

use calls::Answer;
use console::{Input, read_block, say_line};
use layout::DESK_WORDS;
use std::io;
use word::limits::MAP_WORDS;
use word::{Absolute, Area};

// "core 4,096 words, .. area 512 of size 64"
const CORE: usize = 4096;

const AREA: u64 = 512;

const AREA_WORDS: u64 = 64;

// The block's index and what feed answers; the other answers are of the other calls.
fn say_answer(rt: &impl Print, index: u64, a: Answer) -> io::Result<()> {
    print!(rt; "{index}")?;
    match a {
        Answer::More => println!(rt; " more"),
        Answer::Done(start) => say_line(rt, " done ", start.0),
        Answer::Refused(f) => say_line(rt, " refused ", f.number),
        _ => println!(rt),
    }
}

// Feeds the next block, and answers whether to go on.
fn feed_next(
    rt: &(impl io::Input + Print),
    desk: &mut [u64],
    core: &mut [u64],
    place: u64,
    index: u64,
) -> io::Result<bool> {
    let mut block = [0u64; octal::LINES];
    match read_block(rt, &mut block) {
        Input::End => Ok(false),
        Input::Bad => {
            console::say_bad(rt)?;
            Ok(false)
        }
        Input::Block => {
            say_answer(rt, index, feed::feed_block(desk, core, 0, place, &block))?;
            Ok(true)
        }
    }
}

// A proved loop has to end, and nothing says that the input does: it ends where the indices do.
fn feed_all(
    rt: &(impl io::Input + Print),
    desk: &mut [u64],
    core: &mut [u64],
    place: u64,
) -> io::Result<()> {
    for index in 0..u64::MAX {
        if !feed_next(rt, desk, core, place, index)? {
            break;
        }
    }
    Ok(())
}

// "core 4,096 words, room 0's stretch all of them, other stretches empty, area 512 of size 64, no lists"
fn main(rt: HostRuntime) -> io::Result<()> {
    let mut desk = [0u64; DESK_WORDS];
    let mut core = [0u64; CORE];
    let mut map = [0u64; MAP_WORDS];
    map[1] = CORE as u64;
    calls::make::make_desk(&mut desk, CORE as u64, &map);
    let area = Area {
        at: Absolute(AREA),
        size: AREA_WORDS,
    };
    let none = &map[..0];
    match calls::open::open_load(&mut desk, &mut core, 0, area, none, none) {
        Answer::Opened(place) => feed_all(&rt, &mut desk, &mut core, place),
        _ => println!(rt; "not opened"),
    }
}
