// Runs one call of `map` with the index that `build` gives. Behind the index the columns hold sevens. The entries hold 999
// before the call.
ghost use Rattle.std.specs.Prelude.{◌≡◌, length};

use crate::answered::put_answer;
use crate::records::map_records;
use catalogue::lent::LentCatalogue;
use index_calls::build;
use index_columns::LentIndex;
use indexed_mapper::map::map;
use test_cases::reading::at_most;

// The numbers of a case that are no lengths of its lists, and whether the index is lent as records.
#[derive(Clone, Copy)]
pub struct Call {
    pub records: bool,
    pub q: usize,
    pub limit: u64,
    pub entries: usize,
    pub keys: usize,
    pub ranks: usize,
    pub positions: usize,
    pub column: usize,
    pub place: usize,
}

// A column, with one number raised where it is the wrong one.
fn lent_column(column: [u64; 256], own: usize, call: Call) -> [u64; 256]
    ensures { 256 ≡ length result }
{
    let mut c = column;
    let i = call.place;
    if call.column == own {
        if i < 256 {
            c[i] = std::num::wrapping_add_u64(column[i], 1);
        }
    }
    c
}

fn run_map(
    rt: &impl Print,
    entries: &mut [u64],
    index: LentIndex<'_>,
    catalogue: LentCatalogue<'_>,
    read: &[u8],
    call: Call,
) {
    if call.records {
        let answer = map_records(entries, index, catalogue, call.q, read, call.limit);
        return put_answer(rt, answer, entries);
    }
    let answer = map(entries, index, catalogue, call.q, read, call.limit);
    put_answer(rt, answer, entries);
}

// Lends as much of each buffer as the case says.
fn run_lent(
    rt: &impl Print,
    call: Call,
    index: LentIndex<'_>,
    catalogue: LentCatalogue<'_>,
    read: &[u8],
) {
    let mut entries = [999u64; 256];
    let e = at_most(call.entries, 256);
    let k = at_most(call.keys, index.keys.len());
    let r = at_most(call.ranks, index.ranks.len());
    let p = at_most(call.positions, index.positions.len());
    run_map(
        rt,
        &mut entries[0..e],
        LentIndex {
            keys: &index.keys[0..k],
            ranks: &index.ranks[0..r],
            positions: &index.positions[0..p],
        },
        catalogue,
        read,
        call,
    );
}

pub fn run_call(rt: &impl Print, call: Call, catalogue: LentCatalogue<'_>, read: &[u8]) {
    let mut keys = [7u64; 256];
    let mut ranks = [7u64; 256];
    let mut positions = [7u64; 256];
    let _ = build(&mut keys, &mut ranks, &mut positions, catalogue, call.q);
    let ks = lent_column(keys, 1, call);
    let rs = lent_column(ranks, 2, call);
    let ps = lent_column(positions, 3, call);
    run_lent(
        rt,
        call,
        LentIndex {
            keys: &ks,
            ranks: &rs,
            positions: &ps,
        },
        catalogue,
        read,
    );
}
