// The words that head what a program block holds: segment section, table section, group; and the termination block's start.
// Each is read from the word alone. What it says is compared with the area, the lists and the label elsewhere.
#![tactic(auto)]

ghost use Rattle.std.specs.Prelude.{◌≡◌};
ghost use Rattle.program.specs.Sections.{bank_of, segment_of, table_section_of};
ghost use Rattle.program.specs.Groups.{group_of};
ghost use Rattle.program.specs.Start.{start_of, in_bank};

use word::faults::{FAULT_17, FAULT_18};
use word::{Fault, Reference, Relative};

// The last word of a program block that sections and groups may use; the checksum stands behind it.
pub const LAST_WORD: usize = 254;

// IBANK or DBANK: where it starts, and how many words it has.
#[derive(Clone, Copy)]
pub struct Bank {
    pub at: Relative,
    pub count: u64,
}

#[derive(Clone, Copy)]
pub struct Segment {
    pub ibank: Bank,
    pub dbank: Bank,
}

// A table section: which core table it fills, and how many of its words it may store.
#[derive(Clone, Copy)]
pub struct TableSection {
    pub number: Reference,
    pub count: u64,
}

// A group: how many words follow its identifier, how many of them are program words, whether it is its section's last, whether
// it is for the IBANK (else it is for the DBANK or a table), and where its words go.
#[derive(Clone, Copy)]
pub struct Group {
    pub words: u64,
    pub program: u64,
    pub last: bool,
    pub ibank: bool,
    pub at: Relative,
}

// A bank word: 17 where one of the bits 35, 34, 17 and 16 is set.
pub fn read_bank(w: u64) -> Result<Bank, Fault>
    ensures { result ≡ bank_of w }
{
    if word::bits(w, 35, 34) != 0 {
        return Err(FAULT_17);
    }
    if word::bits(w, 17, 16) != 0 {
        return Err(FAULT_17);
    }
    Ok(Bank {
        at: Relative(word::bits(w, 15, 0)),
        count: word::bits(w, 33, 18),
    })
}

// The two bank words of a segment section; 17 also where the IBANK has no word.
pub fn read_segment(first: u64, second: u64) -> Result<Segment, Fault>
    ensures { result ≡ segment_of first second }
{
    let ibank = read_bank(first)?;
    if ibank.count == 0 {
        return Err(FAULT_17);
    }
    let dbank = read_bank(second)?;
    Ok(Segment { ibank, dbank })
}

// A table section's word: 17 where bits 35-34 are not 01, bits 17-8 not zero, or the count is 0.
pub fn read_table_section(w: u64) -> Result<TableSection, Fault>
    ensures { result ≡ table_section_of w }
{
    if word::bits(w, 35, 34) != 1 {
        return Err(FAULT_17);
    }
    if word::bits(w, 17, 8) != 0 {
        return Err(FAULT_17);
    }
    let count = word::bits(w, 33, 18);
    if count == 0 {
        return Err(FAULT_17);
    }
    Ok(TableSection {
        number: Reference(word::bits(w, 7, 0)),
        count,
    })
}

// A group's identifier: 18 where bits 35-34 are not 10, or there is no program word.
pub fn read_group(w: u64) -> Result<Group, Fault>
    ensures { result ≡ group_of w }
{
    if word::bits(w, 35, 34) != 2 {
        return Err(FAULT_18);
    }
    let program = word::bits(w, 25, 18);
    if program == 0 {
        return Err(FAULT_18);
    }
    Ok(Group {
        words: word::bits(w, 33, 26),
        program,
        last: word::is_set(w, 17),
        ibank: word::bits(w, 16, 16) == 0,
        at: Relative(word::bits(w, 15, 0)),
    })
}

// The start that a termination block gives.
pub fn read_start(block: &[u64]) -> Relative
    ensures { result ≡ start_of block.now }
{
    Relative(word::bits(word::word_at(block, 1), 15, 0))
}

// Whether an address lies in a bank: a start that does not lie in the IBANK is 22.
pub fn in_bank(bank: Bank, r: Relative) -> bool
    ensures { result ≡ in_bank bank r }
{
    if r.0 < bank.at.0 {
        return false;
    }
    r.0 - bank.at.0 < bank.count
}
