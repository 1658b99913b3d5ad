// The tags of a file, read from the words of its entries and kept by kind, each kind's in a stretch of its own.
#![tactic(auto, unfolding(crate::specs::Tags::tag_of, crate::specs::HowKept::kept_of, crate::specs::HowKept::with_all_tags, word::specs::Lists::range))]

ghost use Rattle.std.specs.Prelude.{◌≡◌, ◌<◌, length};
ghost use Rattle.label.specs.Label.{Carried};
ghost use Rattle.book.specs.Tags.{entries_of, tag_of};
ghost use Rattle.book.specs.HowKept.{start_of, kind_most, kept_words, kept_of, with_tags, with_all_tags};

use crate::Kind;
use label::Label;
use word::Reference;

// A stretch has so many numbers, and the stretches of the kinds stand one behind another.
const KIND_MOST: usize = 128;

pub const KEPT_WORDS: usize = 3 * KIND_MOST;

// The tags of the file, each kind's in its stretch.
pub fn read_tags(blocks: &[u64], l: Label, kept: &mut [u64])
    requires { (Carried l) × (length kept.old ≡ kept_words) }
    ensures { kept.new ≡ with_all_tags blocks.now l kept.old }
{
    read_kind(blocks, l, Kind::Peripheral, kept);
    read_kind(blocks, l, Kind::Address, kept);
    read_kind(blocks, l, Kind::Length, kept);
}

fn read_kind(blocks: &[u64], l: Label, kind: Kind, kept: &mut [u64])
    requires { (Carried l) × (length kept.old ≡ kept_words) }
    ensures { kept.new ≡ with_tags blocks.now l kind kept.old }
{
    let a = start_of(kind);
    let n = count_of(l, kind);
    for j in 0..n {
        kept[a + j] = tag_of(blocks, l, kind, j as u64);
    }
}

// The tag of entry j.
fn tag_of(blocks: &[u64], l: Label, kind: Kind, j: u64) -> u64
    requires { (Carried l) × (j < kind_most) }
    ensures { result ≡ tag_of blocks.now l kind j }
{
    let io = l.switches + l.channels + l.units;
    match kind {
        Kind::Peripheral => front::entry_word(blocks, modification::io_entry(Reference(j))),
        Kind::Address => front::entry_word(blocks, modification::core_entry(io, Reference(j))),
        Kind::Length => front::entry_word(blocks, modification::core_entry(io, Reference(j)) + 1),
    }
}

// What is kept of a kind.
pub fn kept_of(kept: &[u64], l: Label, kind: Kind) -> &[u64]
    requires { (Carried l) × (length kept.now ≡ kept_words) }
    ensures { result.now ≡ kept_of kept.now l kind }
{
    let a = start_of(kind);
    &kept[a..a + count_of(l, kind)]
}

// Where a kind's stretch begins.
pub fn start_of(kind: Kind) -> usize
    ensures { result ≡ start_of kind }
{
    match kind {
        Kind::Peripheral => 0,
        Kind::Address => KIND_MOST,
        Kind::Length => 2 * KIND_MOST,
    }
}

// How many entries have a tag of the kind.
pub fn count_of(l: Label, kind: Kind) -> usize
    requires { Carried l }
    ensures { result ≡ entries_of l kind }
{
    match kind {
        Kind::Peripheral => (l.switches + l.channels + l.units) as usize,
        Kind::Address | Kind::Length => l.tables as usize,
    }
}
