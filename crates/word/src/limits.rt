// The house's limits, each once, as specs/Limits.antt has them for the definitions.

// "Eight rooms, 0 to 7; twelve places, 0 to 11."
pub const ROOMS: usize = 8;

pub const PLACES: usize = 12;

// The numbers of a map: a pair, start and length, for each room.
pub const MAP_WORDS: usize = 2 * ROOMS;

// The most words of a core (refusal 2).
pub const CORE_MOST: u64 = 65536;

// The most I/O references and the most core tables of a load (refusals 8 and 15).
pub const IO_MOST: usize = 128;

pub const TABLES_MOST: usize = 128;
