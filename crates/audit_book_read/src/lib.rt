// A ledger with a read more.
#![tactic(auto)]

ghost use Rattle.std.specs.Prelude.{◌≡◌, true, ◌∷◌, [], ◌+◌, ◌*◌, ◌≤◌, ◌<◌, length};
ghost use Rattle.lists.specs.Raised.{raised};
ghost use Rattle.audit_counters.specs.Targets.{targets_in, raised_if, small};
ghost use Rattle.audit_book_read.specs.Posting.{added_to, ledger_raised, ledger_small, LedgerPosted};

use audit_counters::count_runs;
use audit_ledger::{Ledger, MAX_COUNTER};

// What a read adds to the totals.
#[derive(Clone, Copy)]
pub struct Added {
    pub groups: u64,
    pub singles: u64,
    pub multi: u64,
}

// What a read with n groups at the front of the entries adds to the totals.
pub fn added_by(entries: &[u64], n: usize) -> Added
    requires { 4 * n ≤ length entries.now }
    ensures { result ≡ added_to (targets_in n entries.now) }
{
    if n == 1 {
        return Added {
            groups: 1,
            singles: 1,
            multi: 0,
        };
    }
    let multi = if 1 < n { count_runs(entries, n) } else { 0 };
    Added {
        groups: n as u64,
        singles: 0,
        multi,
    }
}

// Whether counts stay within 64 bits when one is raised: the others are as they were.
fn counts_fit(counts: &[u64], at: usize) -> bool
    requires { at < length counts.now }
    ensures { result ≡ small (raised at counts.now) }
{
    counts[at] < MAX_COUNTER
}

// Whether the totals stay within 64 bits.
fn totals_fit(ledger: Ledger, more: Added) -> bool
    ensures { result ≡ small ((ledger.placements + more.groups) ∷ (ledger.singles + more.singles) ∷ (ledger.multi + more.multi) ∷ []) }
{
    more.groups <= MAX_COUNTER - ledger.placements
        && more.singles <= MAX_COUNTER - ledger.singles
        && more.multi <= MAX_COUNTER - ledger.multi
}

// Whether a ledger has room for a read.
fn has_room(ledger: Ledger, role: usize, state: usize, more: Added) -> bool
    requires { (role < 3) × (state < 6) }
    ensures { result ≡ ledger_small (ledger_raised role state more ledger) }
{
    counts_fit(&ledger.table, 6 * role + state)
        && counts_fit(&ledger.reads, role)
        && totals_fit(ledger, more)
}

// The ledger with a read for which it has room.
fn raise_ledger(ledger: Ledger, role: usize, state: usize, more: Added) -> Ledger
    requires role_bound { (role < 3) × (state < 6) }
    requires ledger_value { ledger_small (ledger_raised role state more ledger) ≡ true }
    ensures { result ≡ ledger_raised role state more ledger }
{
    let at = 6 * role + state;
    let mut next = ledger;
    next.table[at] += 1;
    next.reads[role] += 1;
    next.placements += more.groups;
    next.singles += more.singles;
    next.multi += more.multi;
    next.indeterminate |= state == 2;
    next
}

// The ledger with a read, if it has room for it.
pub fn post_read(ledger: Ledger, role: usize, state: usize, more: Added) -> Option<Ledger>
    requires { (role < 3) × (state < 6) }
    ensures { LedgerPosted role state more ledger result }
{
    if !has_room(ledger, role, state, more) {
        return None;
    }
    Some(raise_ledger(ledger, role, state, more))
}
