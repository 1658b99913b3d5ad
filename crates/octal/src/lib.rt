// The text of a block, as programs read and write it: 256 lines of 12 octal digits.
#![tactic(auto)]

ghost use Rattle.std.specs.Prelude.{◌≡◌, ◌+◌, ◌≤◌, ◌<◌, length};
ghost use Rattle.word.specs.Lists.{splice};
ghost use Rattle.octal.specs.Lines.{line_at, is_block, block_of, is_whole, ended, text_bytes, line_count};
ghost use Rattle.octal.specs.Text.{octal_digit, line_of, text_of};

// The digits of a line, its bytes with the newline, the lines of a block, and the bytes of a block's text.
const DIGITS: usize = 12;

const LINE: usize = DIGITS + 1;

pub const LINES: usize = 256;

pub const TEXT: usize = LINES * LINE;

const TEXT_UNENDED: usize = TEXT - 1;

const NEWLINE: u8 = b'\n';

const DIGIT_0: u8 = b'0';

const DIGIT_7: u8 = b'7';

// The word of the line whose first byte is at place a, if it is one.
pub fn read_line(text: &[u8], a: usize) -> Option<u64>
    requires { a + 13 ≤ length text.now }
    ensures { result ≡ line_at text.now a }
{
    let last = a + DIGITS;
    let mut w: u64 = 0;
    for &d in &text[a..last] {
        if d < DIGIT_0 || DIGIT_7 < d {
            return None;
        }
        w = w * 8 + u64::from(d - DIGIT_0);
    }
    (text[last] == NEWLINE).then_some(w)
}

// Whether the n bytes that came are a block's text. The last newline is put where it is missing.
#[tactic(auto, unfolding(crate::specs::Lines::is_whole, crate::specs::Lines::ended))]
pub fn end_text(text: &mut [u8], n: usize) -> bool
    requires { length text.old ≡ text_bytes }
    ensures { (result ≡ is_whole n) × (text.new ≡ ended text.old n) }
{
    if n == TEXT_UNENDED {
        text[TEXT_UNENDED] = NEWLINE;
    }
    n == TEXT || n == TEXT_UNENDED
}

// The block that the text spells, and whether all its lines are good.
pub fn read_lines(text: &[u8], block: &mut [u64]) -> bool
    requires { (length text.now ≡ text_bytes) × (length block.old ≡ line_count) }
    ensures { (result ≡ is_block text.now) × (block.new ≡ block_of text.now) }
{
    let mut good = true;
    for i in 0..LINES {
        let line = read_line(text, i * LINE);
        block[i] = line.unwrap_or(0);
        good &= line.is_some();
    }
    good
}

// The text of the block, into a text of its length.
pub fn write_lines(block: &[u64], text: &mut [u8])
    requires { (length block.now ≡ line_count) × (length text.old ≡ text_bytes) }
    ensures { text.new ≡ text_of block.now }
{
    for i in 0..LINES {
        write_line(text, i * LINE, block[i]);
    }
}

// The line of w, in the text from place a on.
fn write_line(text: &mut [u8], a: usize, w: u64)
    requires { a + 13 ≤ length text.old }
    ensures { text.new ≡ splice text.old a (line_of w) }
{
    for i in 0..DIGITS {
        text[a + i] = digit_at(w, i);
    }
    text[a + DIGITS] = NEWLINE;
}

// The digit of w that has i digits before it: three bits of it, in ASCII.
fn digit_at(w: u64, i: usize) -> u8
    requires { i < 12 }
    ensures { result ≡ octal_digit w i }
{
    DIGIT_0 + ((w >> (33 - 3 * i)) % 8) as u8
}
