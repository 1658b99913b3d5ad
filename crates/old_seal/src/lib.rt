// The checksum rule before #104, and a block of it resealed: its checksum word written anew by the rule in force.
#![tactic(auto)]

ghost use Rattle.std.specs.Prelude.{◌≡◌};
ghost use Rattle.old_seal.specs.Reseal.{seal_place, Reseals};

use block::Record;
use word::faults::FAULT_12;
use word::{Fault, WORD_LIMIT};

// The word that holds the checksum of the block with this index in its file; 0 is the label.
fn seal_place(index: u64) -> usize
    ensures { result ≡ seal_place index }
{
    if index == 0 {
        block::checksum_place(Record::Label)
    } else {
        block::checksum_place(Record::Program)
    }
}

// Refusals 11 and 12 by the old rule; where it passes, the checksum word is written anew, and no other word.
pub fn reseal(words: &mut [u64], index: u64) -> Result<(), Fault>
    ensures { Reseals index words.old result words.new }
{
    let p = seal_place(index);
    let s = block::sum_words(words)?;
    let seal = words[p];
    let others = s - seal;
    let old = block::fold(others % WORD_LIMIT);
    if old != seal {
        return Err(FAULT_12);
    }
    let new = block::seal_of(others);
    words[p] = new;
    Ok(())
}
