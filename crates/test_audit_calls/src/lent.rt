// Runs a call of an audit that is written as bytes, with what is lent to it; `commands` says how it is written.
ghost use Rattle.std.specs.Prelude.{◌≤◌, length};

use crate::finish::run_finish;
use crate::fragment::run_fragment;
use crate::open::run_open;
use crate::sheet::apply_command;
use audit_ledger::LentCounters;
use audit_model::settings::AuditState;
use catalogue::lent::LentCatalogue;
use index_columns::LentIndex;
use test_audit_io::desk::{Held, with_sheet, with_state};
use test_audit_io::numbers::{head_of, settings_of, share};
use test_audit_io::reads::{
    first_length, first_qualities, first_read, second_length, second_qualities, second_read,
};
use test_cases::reading::is_set;
use test_cases::writing::put;

// The state that a fragment leaves. Its reads are whole, and the entries hold 999 before the call.
fn fragment_command(
    rt: &impl Print,
    placements: &mut [u64],
    singles: &mut [u64],
    multi: &mut [u64],
    index: LentIndex<'_>,
    catalogue: LentCatalogue<'_>,
    s: &[u8],
    state: AuditState,
) -> AuditState {
    if s.len() < 37 {
        put(rt, b"short\n");
        return state;
    }
    let head = head_of(s);
    let first = first_read(s);
    let n = first_length(s);
    let second = second_read(s);
    let m = second_length(s);
    let mut entries = [999u64; 256];
    let e = share(s, 2, 256);
    run_fragment(
        rt,
        &mut entries[0..e],
        placements,
        singles,
        multi,
        index,
        catalogue,
        &first[0..n],
        first_qualities(s),
        &second[0..m],
        second_qualities(s),
        head,
        state,
    )
}

// A call with what is lent to it.
fn lent_call(
    rt: &impl Print,
    placements: &mut [u64],
    singles: &mut [u64],
    multi: &mut [u64],
    index: LentIndex<'_>,
    catalogue: LentCatalogue<'_>,
    s: &[u8],
    held: Held,
) -> Held
    requires { 9 ≤ length s.now }
{
    let code = s[0];
    let state = held.state;
    if code == 2 {
        if s.len() < 20 {
            put(rt, b"short\n");
            return held;
        }
        let left = run_open(
            rt,
            placements,
            singles,
            multi,
            index,
            catalogue,
            is_set(s[1]),
            settings_of(s, 9),
        );
        return with_state(held, left);
    }
    if code == 3 {
        let left = fragment_command(rt, placements, singles, multi, index, catalogue, s, state);
        return with_state(held, left);
    }
    if code == 4 {
        let sheet = run_finish(
            rt,
            LentCounters {
                placements,
                singles,
                multi,
            },
            index,
            catalogue,
            is_set(s[1]),
            state,
        );
        return with_sheet(held, sheet);
    }
    let sheet = held.sheet;
    apply_command(
        rt,
        LentCounters {
            placements,
            singles,
            multi,
        },
        catalogue,
        s,
        sheet,
    );
    held
}

// Lends as much of each list as the command says.
pub fn lend(
    rt: &impl Print,
    placements: &mut [u64],
    singles: &mut [u64],
    multi: &mut [u64],
    index: LentIndex<'_>,
    catalogue: LentCatalogue<'_>,
    s: &[u8],
    held: Held,
) -> Held
    requires { 9 ≤ length s.now }
{
    let p = share(s, 3, placements.len());
    let g = share(s, 4, singles.len());
    let m = share(s, 5, multi.len());
    let k = share(s, 6, index.keys.len());
    let r = share(s, 7, index.ranks.len());
    let o = share(s, 8, index.positions.len());
    lent_call(
        rt,
        &mut placements[..p],
        &mut singles[..g],
        &mut multi[..m],
        LentIndex {
            keys: &index.keys[..k],
            ranks: &index.ranks[..r],
            positions: &index.positions[..o],
        },
        catalogue,
        s,
        held,
    )
}
