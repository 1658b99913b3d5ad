// A program's name, read a character at a time.
ghost use Rattle.std.specs.Prelude.{◌≡◌, ◌++◌};
ghost use Rattle.block.specs.Fieldata.{characters};
ghost use Rattle.label.specs.Name.{letter_or_digit, name_read};
ghost use Rattle.label.specs.HowSpelling.{next_spelling, spelled, is_wrong};

use crate::Spelling;
use word::Fault;
use word::faults::FAULT_15;

// "12 Fieldata characters": six a word, of six bits each.
const IN_WORD: u64 = 6;

// "A to Z are octal 06 to 37, 0 to 9 are 60 to 71, hyphen 41, space 05."
const LETTER_A: u64 = 0o06;

const LETTER_Z: u64 = 0o37;

const DIGIT_0: u64 = 0o60;

const DIGIT_9: u64 = 0o71;

const HYPHEN: u64 = 0o41;

const SPACE: u64 = 0o05;

// The name that two words spell, or 15 at the one in which the first wrong character stands.
pub fn read_name(first: u64, second: u64) -> Result<(), Fault>
    ensures { result ≡ name_read (characters 6 first ++ characters 6 second) }
{
    let s = spell_word(Spelling::First, first);
    if is_wrong(s) {
        return Err(FAULT_15);
    }
    if is_wrong(spell_word(s, second)) {
        return Err(word::further(1, FAULT_15));
    }
    Ok(())
}

fn is_wrong(s: Spelling) -> bool
    ensures { result ≡ is_wrong s }
{
    matches!(s, Spelling::Wrong)
}

// The six characters of a word, the leftmost first.
fn spell_word(start: Spelling, w: u64) -> Spelling
    ensures { result ≡ spelled start (characters 6 w) }
{
    let mut s = start;
    for n in (0..IN_WORD).rev() {
        s = spell(s, (w >> (6 * n)) % 64);
    }
    s
}

// One character.
fn spell(s: Spelling, c: u64) -> Spelling
    ensures { result ≡ next_spelling s c }
{
    match s {
        Spelling::First => spell_first(c),
        Spelling::Inside => spell_inside(c),
        Spelling::Spaces => spell_space(c),
        Spelling::Wrong => Spelling::Wrong,
    }
}

fn spell_first(c: u64) -> Spelling
    ensures { result ≡ next_spelling Spelling.First c }
{
    if letter_or_digit(c) {
        return Spelling::Inside;
    }
    Spelling::Wrong
}

fn spell_inside(c: u64) -> Spelling
    ensures { result ≡ next_spelling Spelling.Inside c }
{
    if c == SPACE {
        return Spelling::Spaces;
    }
    if letter_or_digit(c) {
        return Spelling::Inside;
    }
    if c == HYPHEN {
        return Spelling::Inside;
    }
    Spelling::Wrong
}

fn spell_space(c: u64) -> Spelling
    ensures { result ≡ next_spelling Spelling.Spaces c }
{
    if c == SPACE {
        return Spelling::Spaces;
    }
    Spelling::Wrong
}

#[tactic(auto, using(word::proofs::Tests::tests), unfolding(crate::specs::Name::letter_or_digit))]
fn letter_or_digit(c: u64) -> bool
    ensures { result ≡ letter_or_digit c }
{
    matches!(c, LETTER_A..=LETTER_Z | DIGIT_0..=DIGIT_9)
}
