// A block of a program file: whether it is one (11), whether its checksum word agrees (12), and which record it is of (13).
#![tactic(auto)]

ghost use Rattle.std.specs.Prelude.{◌≡◌};
ghost use Rattle.block.specs.Records.{checksum_place, of_record};
ghost use Rattle.block.specs.Checksum.{carried_round, folded};
ghost use Rattle.block.specs.Block.{verdict};
ghost use Rattle.block.specs.HowChecksum.{summed, seal_of};

use word::faults::{FAULT_11, FAULT_12};
use word::{Fault, WORD_LIMIT};

// How many words a block has.
pub const BLOCK_WORDS: usize = 256;

// Where its quarters after the first begin.
const SECOND: usize = 64;

const THIRD: usize = 128;

const FOURTH: usize = 192;

// "The checksum word is word 254 of the label and word 255 elsewhere."
pub const LABEL_CHECKSUM: usize = 254;

pub const CHECKSUM: usize = 255;

// The identifiers *MODRC, *PRORC and *TRMRC: the first word of a block of each record but the label.
const MODRC: u64 = 0o502224112710;

const PRORC: u64 = 0o502527242710;

const TRMRC: u64 = 0o503127222710;

// The records of a program file, in the order of the file.
#[derive(Clone, Copy)]
pub enum Record {
    Label,
    Modification,
    Program,
    Termination,
}

// The word that holds a block's checksum.
pub fn checksum_place(r: Record) -> usize
    ensures { result ≡ checksum_place r }
{
    match r {
        Record::Label => LABEL_CHECKSUM,
        Record::Modification | Record::Program | Record::Termination => CHECKSUM,
    }
}

// Whether a block is of record r: by its first word, but a label is known by its place alone.
pub fn of_record(block: &[u64], r: Record) -> bool
    ensures { result ≡ of_record r block.now }
{
    let first = word::word_at(block, 0);
    match r {
        Record::Label => true,
        Record::Modification => first == MODRC,
        Record::Program => first == PRORC,
        Record::Termination => first == TRMRC,
    }
}

// One pass over the words of a block: their plain sum, or refusal 11 where they are no block. The sum of 256 words below 2^36 is far
// below 2^64; of others it may wrap, and is not used. A turn takes a word of each quarter: the compiler then makes fewer turns of it.
pub fn sum_words(block: &[u64]) -> Result<u64, Fault>
    ensures { result ≡ summed block.now }
{
    if block.len() != BLOCK_WORDS {
        return Err(FAULT_11);
    }
    let mut any: u64 = 0;
    let mut sum: u64 = 0;
    for i in 0..SECOND {
        let a = block[i];
        let b = block[SECOND + i];
        let c = block[THIRD + i];
        let d = block[FOURTH + i];
        any = any | a | b | c | d;
        sum = std::num::wrapping_add_u64(sum, a);
        sum = std::num::wrapping_add_u64(sum, b);
        sum = std::num::wrapping_add_u64(sum, c);
        sum = std::num::wrapping_add_u64(sum, d);
    }
    if WORD_LIMIT <= any {
        Err(FAULT_11)
    } else {
        Ok(sum)
    }
}

// What ran over bit 35 of a sum, added back at bit 0.
fn carry_round(s: u64) -> u64
    ensures { result ≡ carried_round s }
{
    s % WORD_LIMIT + s / WORD_LIMIT
}

// The upper 18 bits of a sum and its lower 18, added.
pub fn fold(s: u64) -> u64
    ensures { result ≡ folded s }
{
    word::bits(s, 35, 18) + word::bits(s, 17, 0)
}

// The checksum of words whose plain sum is s: what runs over may run over once more as it is added back.
pub fn seal_of(s: u64) -> u64
    ensures { result ≡ seal_of s }
{
    let once = carry_round(s);
    let twice = carry_round(once);
    fold(twice)
}

// Refusals 11 and 12 of a block of record r.
pub fn check_block(block: &[u64], r: Record) -> Result<(), Fault>
    ensures { result ≡ verdict r block.now }
{
    let s = sum_words(block)?;
    let seal = block[checksum_place(r)];
    if seal_of(s - seal) == seal {
        Ok(())
    } else {
        Err(FAULT_12)
    }
}
