// One group of a program block: its program words are read from the lent block and stored into the lent core, each one's left and
// right half changed in order, while the indicators are counted. 18 comes before a refusal of a field: where a field is refused,
// the count decides which.
#![tactic(auto)]

mod changes;
mod halves;
mod refusals;

ghost use Rattle.std.specs.Prelude.{◌≡◌, length};
ghost use Rattle.field.specs.Field.{assigned_by};
ghost use Rattle.group.specs.Group.{lies_in, words_lie, address_of, group_step, GroupMeets, Ready};
ghost use Rattle.group.specs.HowGroup.{AddressReady, FillReady, Fitting, zero_fill, counted_fill, fill_of, Fills};

use field::Assigned;
use lists::Table;
use program::{Bank, Group, LAST_WORD, Segment};
use word::faults::FAULT_18;
use word::{Absolute, Area, Fault};

// The section that a group stands in: the segment with its two banks, or a core table with the section's word count.
#[derive(Clone, Copy)]
pub enum Section {
    Segment(Segment),
    Table(Table, u64),
}

// Where a group ends: the place of the next identifier, and whether the group was its section's last.
#[derive(Clone, Copy)]
pub struct GroupEnd {
    pub past: usize,
    pub last: bool,
}

// The group whose identifier stands at place i of a block, into the words of the core that it goes to: 18 where these do not lie
// where they must.
pub fn group_step(
    s: Assigned,
    section: Section,
    lists: &[u64],
    block: &[u64],
    i: usize,
    core: &mut [u64],
) -> Result<GroupEnd, Fault>
    requires { Ready s.given lists.now section block.now i core.old }
    ensures { GroupMeets (group_step (assigned_by s lists.now) section block.now i core.old)
        result core.new }
{
    let g = program::read_group(block[i])?;
    if !words_lie(section, g) {
        return Err(FAULT_18);
    }
    let to = address_of(s.given.area, section, g);
    let first = to.0 as usize;
    let past = first + g.program as usize;
    fill_group(s, lists, block, i, g, &mut core[first..past])
}

// Whether the words of a group lie in their bank, or in the table section's count. Bit 16 zero is the IBANK; a table section has no
// such group.
fn words_lie(section: Section, g: Group) -> bool
    ensures { result ≡ words_lie section g }
{
    match section {
        Section::Segment(segment) => {
            if g.ibank {
                let bank = segment.ibank;
                return lies_in(bank, g);
            }
            let bank = segment.dbank;
            lies_in(bank, g)
        }
        Section::Table(_, count) => {
            if g.ibank {
                return false;
            }
            word::run_within(g.at.0, g.program, 0, count)
        }
    }
}

// A bank and a group both count from the area's address.
fn lies_in(bank: Bank, g: Group) -> bool
    ensures { result ≡ lies_in bank g }
{
    word::run_within(g.at.0, g.program, bank.at.0, bank.count)
}

// Where the first word of a group goes.
fn address_of(area: Area, section: Section, g: Group) -> Absolute
    requires { AddressReady area section g }
    ensures { result ≡ address_of area section g }
{
    let at = g.at;
    match section {
        Section::Segment(_) => word::placed(area, at),
        Section::Table(t, _) => {
            let table = t.at;
            word::from_table(table, at)
        }
    }
}

// The group g, into the words out that it goes to: 18 where it is not whole in its block or has fewer words than program words.
fn fill_group(
    s: Assigned,
    lists: &[u64],
    block: &[u64],
    i: usize,
    g: Group,
    out: &mut [u64],
) -> Result<GroupEnd, Fault>
    requires { FillReady s.given lists.now block.now i g out.old }
    ensures { Fills (fill_of (assigned_by s lists.now) block.now i g) result out.new }
{
    if LAST_WORD < i + g.words as usize {
        return refuse(out, FAULT_18);
    }
    if g.words < g.program {
        return refuse(out, FAULT_18);
    }
    count_group(s, lists, block, i, g, out)
}

// The words changed, and the count of the indicator words.
fn count_group(
    s: Assigned,
    lists: &[u64],
    block: &[u64],
    i: usize,
    g: Group,
    out: &mut [u64],
) -> Result<GroupEnd, Fault>
    requires { (FillReady s.given lists.now block.now i g out.old) × (Fitting i g) }
    ensures { Fills (counted_fill (assigned_by s lists.now) block.now i g) result out.new }
{
    let first = i + 1;
    let end = first + g.words as usize;
    let n = g.program as usize;
    let marks = (g.words - g.program) as usize;
    let Some(bits) = changes::change_group(s, lists, &block[first..end], n, out) else {
        return refuse(out, refusals::group_fault(s, lists, &block[first..end], n));
    };
    if indicator::just_enough(bits, marks) {
        return Ok(GroupEnd {
            past: end,
            last: g.last,
        });
    }
    refuse(out, FAULT_18)
}

// A refused group leaves zeros where its words would have gone.
fn refuse(out: &mut [u64], f: Fault) -> Result<GroupEnd, Fault>
    ensures { Fills (zero_fill (length out.old) f) result out.new }
{
    let n = out.len();
    word::slices::clear(out, 0, n);
    Err(f)
}
