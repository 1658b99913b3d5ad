// The lists that are lent to open, as the desk keeps them: the I/O numbers, four to a word, and the tables' ranks.
ghost use Rattle.std.specs.Prelude.{◌≡◌, ◌+◌, ◌*◌, ◌/◌, ◌<◌, ◌≤◌, true, map, length};
ghost use Rattle.word.specs.Lists.{every, splice};
ghost use Rattle.lists.specs.HowKeep.{four_from, fours_kept, has_room, away_rank, ranked, ranks_kept, Ranking};
ghost use Rattle.lists.specs.Obey.{tables_of};
ghost use Rattle.lists.specs.HowTaking.{number_below};

use crate::{AWAY, FOURTH, IO_LIMIT, NO_RANK, NUMBER, NUMBERS, SECOND, THIRD, tables};

// Keeps the first n fours of the numbers at the start of out, each in one word.
pub fn keep_numbers(numbers: &[u64], n: usize, out: &mut [u64])
    requires { (4 * n ≤ length numbers.now) × (n ≤ length out.old) }
    ensures { out.new ≡ splice out.old 0 (fours_kept numbers.now n) }
{
    for i in 0..n {
        out[i] = four_numbers(numbers, i);
    }
}

// Keeps the ranks of the tables of the lent list at the start of ranks; words are those that are kept for them. Where no table is
// empty, the words alone rank every one.
pub fn keep_ranks(tables: &[u64], words: &[u64], ranks: &mut [u64])
    requires { Ranking (tables_of tables.now) words.now ranks.old }
    ensures { ranks.new ≡ splice ranks.old 0 (ranks_kept (tables_of tables.now)) }
{
    if words.len() != tables.len() / 2 {
        away_ranks(tables, ranks);
    }
    rank_words(words, ranks);
}

// Numbers 4 i to 4 i + 3 in one word, the first lowest.
fn four_numbers(numbers: &[u64], i: usize) -> u64
    requires { 4 * i + 3 < length numbers.now }
    ensures { result ≡ four_from numbers.now i }
{
    let a = numbers[4 * i] % IO_LIMIT;
    let b = numbers[4 * i + 1] % IO_LIMIT;
    let c = numbers[4 * i + 2] % IO_LIMIT;
    let d = numbers[4 * i + 3] % IO_LIMIT;
    a + b * SECOND + c * THIRD + d * FOURTH
}

// A rank for each table, as if all were empty.
fn away_ranks(tables: &[u64], ranks: &mut [u64])
    requires { (every has_room (tables_of tables.now) ≡ true) × (length tables.now / 2 ≤ length ranks.old) }
    ensures { ranks.new ≡ splice ranks.old 0 (map away_rank (tables_of tables.now)) }
{
    for k in 0..tables.len() / 2 {
        ranks[k] = tables::lent_table(tables, k).at.0 * AWAY + NO_RANK;
    }
}

// The place of each word, at its table's number.
fn rank_words(words: &[u64], ranks: &mut [u64])
    requires { every (number_below (length ranks.old)) words.now ≡ true }
    ensures { ranks.new ≡ ranked 0 words.now ranks.old }
{
    for (p, w) in words.iter().enumerate() {
        ranks[(w / NUMBER % NUMBERS) as usize] = p as u64;
    }
}
