// The reseal program (#104): reads a program file of the old checksum rule, 256 lines of 12 octal digits a block, and prints it
// with each block sealed by the rule in force, once the old rule has passed.
#![tactic(auto)]

ghost use Rattle.std.specs.Prelude.{◌≡◌, length};
ghost use Rattle.word.specs.Limits.{words_in_block};

use console::Input;
use std::io;

// Prints the block with this index sealed anew; or, in its place, that it is refused. Answers whether to go on: a file with such a
// line in it is no file of octal lines, and so no loader takes what was printed.
fn reseal_block(rt: &impl Print, words: &mut [u64], index: u64) -> io::Result<bool>
    requires { length words.old ≡ words_in_block }
{
    match old_seal::reseal(words, index) {
        Ok(()) => {
            console::say_block(rt, words)?;
            Ok(true)
        }
        Err(f) => {
            print!(rt; "{index}")?;
            console::say_line(rt, " refused ", f.number)?;
            Ok(false)
        }
    }
}

// Reseals the next block, and answers whether to go on.
fn reseal_next(rt: &(impl io::Input + Print), index: u64) -> io::Result<bool> {
    let mut words = [0u64; octal::LINES];
    match console::read_block(rt, &mut words) {
        Input::End => Ok(false),
        Input::Bad => {
            console::say_bad(rt)?;
            Ok(false)
        }
        Input::Block => reseal_block(rt, &mut words, index),
    }
}

// A proved loop has to end, and nothing says that the input does: it ends where the indices do.
fn main(rt: HostRuntime) -> io::Result<()> {
    for index in 0..u64::MAX {
        if !reseal_next(&rt, index)? {
            break;
        }
    }
    Ok(())
}
