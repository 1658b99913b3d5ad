// Program blocks: the sections, their groups, and what is due at each word that may head something.
#![tactic(auto)]

pub mod heads;
pub mod items;

use program::Bank;
use stage::{Due, LabelCounts};
use word::{Fault, Reference};

// What stands at a place of a program block leads to what is due at another place; past the last section's last group, with the IBANK
// where the start must lie; or to a fault, whose word counts from that place. What the three hold is numbers at the same offsets, so
// that the compiler keeps each in one register. Stays with a fault of its own; a Result round it was not tried.
#[derive(Clone, Copy)]
pub enum Item {
    Go(LabelCounts, Due, usize),
    Last(Bank),
    Refused(Fault),
}

// The same, with the commonest case apart: after a group that is not its section's last, what was due is due again. So nothing but
// the place is handed round the loop from group to group. Stays with a fault of its own, as `Item`.
#[derive(Clone, Copy)]
pub enum Turn {
    Same(usize),
    Go(LabelCounts, Due, usize),
    Last(Bank),
    Refused(Fault),
}

// What the program blocks of a load wait for: its label's counts, of sections those to come, and what is due.
#[derive(Clone, Copy)]
pub struct Awaited {
    pub counts: LabelCounts,
    pub due: Due,
}

// What a section hands on to those after it: the least number that a table section may have, and the IBANK, where the start must
// lie.
#[derive(Clone, Copy)]
pub struct Onward {
    pub least: Reference,
    pub ibank: Bank,
}
