// The refusals of 01's table and of 02's requests that a reader gives by name, each a fault of the first word that the reader was
// given. Refusals 4, 5 and 6 are written with their number (`fault_of`), each in one place.
use crate::Fault;

macro_rules! fault {
    ($number:literal) => {
        Fault {
            number: $number,
            word: 0,
            half: None,
            bit: 0,
        }
    };
}

// No fault.
pub const FAULT_0: Fault = fault!(0);

// "desk slice not of the fixed length, or not sound"
pub const FAULT_1: Fault = fault!(1);

// "core length 0, over 65,536, or not the desk's"
pub const FAULT_2: Fault = fault!(2);

// "map not eight pairs, or breaking its rule"
pub const FAULT_3: Fault = fault!(3);

// "area empty, not inside the room's stretch, or sharing a word with one the room holds"
pub const FAULT_7: Fault = fault!(7);

// "over 128 entries, half a pair, an I/O number over 65,535, a table not inside the area, or two tables sharing a word"
pub const FAULT_8: Fault = fault!(8);

// "place over 11, free, or another room's"
pub const FAULT_9: Fault = fault!(9);

// "feed: the load is complete or broken"
pub const FAULT_10: Fault = fault!(10);

// "block not 256 words, or a word of 2^36 or more"
pub const FAULT_11: Fault = fault!(11);

// "checksum word differs"
pub const FAULT_12: Fault = fault!(12);

// "block of the wrong record"
pub const FAULT_13: Fault = fault!(13);

// "program type flag not 001"
pub const FAULT_14: Fault = fault!(14);

// "label fault"
pub const FAULT_15: Fault = fault!(15);

// "assignments don't fit the file"
pub const FAULT_16: Fault = fault!(16);

// "section fault"
pub const FAULT_17: Fault = fault!(17);

// "group fault"
pub const FAULT_18: Fault = fault!(18);

// "modification type not carried, or field form wrong"
pub const FAULT_19: Fault = fault!(19);

// "no such reference"
pub const FAULT_20: Fault = fault!(20);

// "value outside 0 to 65,535"
pub const FAULT_21: Fault = fault!(21);

// "start not in the IBANK"
pub const FAULT_22: Fault = fault!(22);

// #101: "bad record, part record or lent lists not just as long as the file's counts need"
pub const FAULT_24: Fault = fault!(24);

// #101: "tag not in the file"
pub const FAULT_25: Fault = fault!(25);

// #101: "tag given twice in one kind"
pub const FAULT_26: Fault = fault!(26);

// #101: "tag of the file not given"
pub const FAULT_27: Fault = fault!(27);
