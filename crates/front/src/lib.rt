// The front of a program file, its label and its modification blocks, read without a desk (#101): whether it is right, what the label
// needs, and the words of the entries.
#![tactic(auto)]

ghost use Rattle.std.specs.Prelude.{◌≡◌, ◌*◌, ◌≤◌, ◌<◌, ◌^◌, length, Ok};
ghost use Rattle.word.specs.Limits.{words_in_block};
ghost use Rattle.label.specs.Label.{Carried};
ghost use Rattle.front.specs.Front.{label_block, block_at, modification_at, modifications_to, over_at, behind_label, front_of};
ghost use Rattle.front.specs.Front.{wrong_record, with_blocks, blocks_due, entry_word, needs_value};

use block::{BLOCK_WORDS, Record};
use label::Label;
use word::Fault;
use word::faults::FAULT_13;

// 2^10 and 2^20: core entries and modification blocks are counted in these where a label's needs are told.
const TABLES_UNIT: u64 = 1 << 10;

const BLOCKS_UNIT: u64 = 1 << 20;

// A label that is lent alone. Stays a match: with `?` the verdict has room of its own on the stack of needs and assign, 80 bytes.
pub fn read_label_block(block: &[u64]) -> Result<Label, Fault>
    ensures { result ≡ label_block block.now }
{
    match block::check_block(block, Record::Label) {
        Ok(()) => label::read_label(block),
        Err(f) => Err(f),
    }
}

// The label of a front whose blocks are all there and right, or the first fault.
pub fn read_front(blocks: &[u64]) -> Result<Label, Fault>
    ensures { result ≡ front_of blocks.now }
{
    if blocks.is_empty() {
        return Err(FAULT_13);
    }
    let l = read_label_block(block_at(blocks, 0))?;
    with_blocks(blocks, l)
}

// The label, once the blocks behind it are seen to be right.
fn with_blocks(blocks: &[u64], l: Label) -> Result<Label, Fault>
    requires { Carried l }
    ensures { result ≡ with_blocks blocks.now (Ok l) }
{
    check_behind(blocks, blocks_due(l) as usize)?;
    Ok(l)
}

// How many modification blocks the label makes due.
fn blocks_due(l: Label) -> u64
    requires { Carried l }
    ensures { result ≡ blocks_due l }
{
    modification::entry_blocks(l.switches + l.channels + l.units, l.tables)
}

// The blocks behind the label, of which m are due.
fn check_behind(blocks: &[u64], m: usize) -> Result<(), Fault>
    requires { m ≤ 65536 }
    ensures { result ≡ behind_label blocks.now m }
{
    check_modifications(blocks, m)?;
    check_over(blocks, m + 1)
}

// Modification blocks 1 to m.
fn check_modifications(blocks: &[u64], m: usize) -> Result<(), Fault>
    requires { m ≤ 65536 }
    ensures { result ≡ modifications_to blocks.now m }
{
    for i in 0..m {
        check_modification(blocks, i + 1)?;
    }
    Ok(())
}

// Block i, where a modification block is due.
fn check_modification(blocks: &[u64], i: usize) -> Result<(), Fault>
    requires { i ≤ 2 ^ 20 }
    ensures { result ≡ modification_at blocks.now i }
{
    if blocks.len() <= BLOCK_WORDS * i {
        return Err(wrong_record(i));
    }
    let b = block_at(blocks, i);
    block::check_block(b, Record::Modification)?;
    if block::of_record(b, Record::Modification) {
        Ok(())
    } else {
        Err(wrong_record(i))
    }
}

// Block i, where none is due any more.
fn check_over(blocks: &[u64], i: usize) -> Result<(), Fault>
    requires { i ≤ 2 ^ 20 }
    ensures { result ≡ over_at blocks.now i }
{
    if blocks.len() <= BLOCK_WORDS * i {
        return Ok(());
    }
    block::check_block(block_at(blocks, i), Record::Program)?;
    Err(wrong_record(i))
}

// 13 at the first word of block i.
fn wrong_record(i: usize) -> Fault
    requires { i ≤ 2 ^ 20 }
    ensures { result ≡ wrong_record i }
{
    word::further((BLOCK_WORDS * i) as u64, FAULT_13)
}

// Block i, as far as it is there.
fn block_at(blocks: &[u64], i: usize) -> &[u64]
    requires { words_in_block * i < length blocks.now }
    ensures { result.now ≡ block_at blocks.now i }
{
    let a = BLOCK_WORDS * i;
    if blocks.len() - a < BLOCK_WORDS {
        return &blocks[a..];
    }
    &blocks[a..a + BLOCK_WORDS]
}

// Entry word k of a file, counted from 0 through all entry words.
pub fn entry_word(blocks: &[u64], k: u64) -> u64
    requires { k ≤ 65536 }
    ensures { result ≡ entry_word blocks.now k }
{
    let s = modification::spot_of(k);
    word::word_at(
        blocks,
        BLOCK_WORDS * (1 + s.block as usize) + s.word as usize,
    )
}

// What the label needs, as one number.
pub fn needs_value(l: Label) -> u64
    requires { Carried l }
    ensures { result ≡ needs_value l }
{
    let io = l.switches + l.channels + l.units;
    io + TABLES_UNIT * l.tables + BLOCKS_UNIT * blocks_due(l)
}
