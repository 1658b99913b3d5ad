// What the programs share: blocks of octal lines, read from standard input and printed, what is said of a bad input, and files read by
// name. A function that prints answers an error where not all of it was written.
#![tactic(auto)]

ghost use Rattle.std.specs.Prelude.{◌≡◌, ◌≤◌, length, IfOk, IfErr};
ghost use Rattle.word.specs.Limits.{words_in_block};

use std::io::Read;
use std::rt::Files;
use std::{fs, io};

// What comes next on standard input.
#[derive(Clone, Copy)]
pub enum Input {
    End,
    Block,
    Bad,
}

// The end of a line, a text and a number: a write for each, and one for the newline.
pub fn say_line(rt: &impl Print, text: &str, n: u64) -> io::Result<()> {
    print!(rt; "{text}")?;
    print!(rt; "{n}")?;
    println!(rt)
}

// What every program says of a bad line or a part of a block.
pub fn say_bad(rt: &impl Print) -> io::Result<()> {
    println!(rt; "input bad")
}

// The next block. Where the input ends, or is bad, the block is none. Input that cannot be read has ended.
pub fn read_block(rt: &impl io::Input, block: &mut [u64]) -> Input
    requires { length block.old ≡ words_in_block }
{
    let mut text = [0u8; octal::TEXT];
    let n = read_full(&mut rt.reader(), &mut text).unwrap_or_else(|n| n);
    if n == 0 {
        return Input::End;
    }
    if !octal::end_text(&mut text, n) {
        return Input::Bad;
    }
    if octal::read_lines(&text, block) {
        Input::Block
    } else {
        Input::Bad
    }
}

// Reads until there is no more room, the input ends or a read fails. How many bytes came, no more than there is room for: an error, if
// a read failed.
fn read_full(from: &mut impl Read, bytes: &mut [u8]) -> Result<usize, usize>
    ensures read { IfOk result (λ n. n ≤ length bytes.new) }
    ensures failed { IfErr result (λ n. n ≤ length bytes.new) }
{
    let mut n: usize = 0;
    // Stays a while loop: each read says how far it came.
    while n < bytes.len() {
        match from.read(&mut bytes[n..]) {
            Ok(0) => break,
            Ok(more) => n += more,
            Err(_) => return Err(n),
        }
    }
    Ok(n)
}

// The block as 256 lines.
pub fn say_block(rt: &impl Print, block: &[u64]) -> io::Result<()>
    requires { length block.now ≡ words_in_block }
{
    let mut text = [0u8; octal::TEXT];
    octal::write_lines(block, &mut text);
    rt.write_all(&text)
}

// The start of the file of this name, as much of it as there is room for: how many bytes, if it can be read. A name that is not UTF-8
// cannot be opened. A folder opens, and only its first read fails.
pub fn read_file(rt: &impl Files, name: &[u8], bytes: &mut [u8]) -> Option<usize> {
    let path = str::from_utf8(name).ok()?;
    let mut file = fs::open(rt, path).ok()?;
    read_full(&mut file, bytes).ok()
}
