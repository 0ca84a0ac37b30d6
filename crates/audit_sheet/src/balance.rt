// The books held against themselves.
ghost use Rattle.std.specs.Prelude.{◌≡◌, ◌<◌};
ghost use Rattle.audit_ledger.specs.Balance.{agree, role_agrees};
ghost use Rattle.lists.specs.Filter.{every};
ghost use Rattle.audit_model.specs.Settings.{roles_of, states_shown};
ghost use Rattle.audit_sheet.specs.Agreeing.{books_agree};

use audit_ledger::{Ledger, LentCounters, MAX_COUNTER};
use audit_model::settings::{AuditInputMode, Settings};

// Whether numbers have a sum of 64 bits that is the total.
pub fn sum_agrees(numbers: &[u64], total: u64) -> bool
    ensures { result ≡ agree numbers.now total }
{
    let mut sum = 0;
    for number in numbers {
        if MAX_COUNTER - sum < *number {
            return false;
        }
        sum += *number;
    }
    sum == total
}

// Whether the counts of the states that are shown agree with the reads of a role.
fn role_agrees(ledger: Ledger, role: usize, remap: bool) -> bool
    requires { role < 3 }
    ensures { result ≡ role_agrees (states_shown remap) ledger role }
{
    let table = ledger.table;
    let reads = ledger.reads[role];
    let start = 6 * role;
    if remap {
        return sum_agrees(&table[start + 1..start + 6], reads);
    }
    sum_agrees(&table[start..start + 1], reads)
}

// Whether the counts of a run's roles agree with its reads.
fn roles_agree(ledger: Ledger, settings: Settings) -> bool
    ensures { result ≡ every (role_agrees (states_shown settings.remap) ledger) (roles_of settings.mode) }
{
    let mode = settings.mode;
    let remap = settings.remap;
    match mode {
        AuditInputMode::SingleEnd => role_agrees(ledger, 0, remap),
        AuditInputMode::PairedEnd => {
            role_agrees(ledger, 1, remap) && role_agrees(ledger, 2, remap)
        }
    }
}

// Whether the books agree with themselves: 18 where they do not.
#[tactic(auto, unfolding(audit_ledger::specs::Balance::balanced))]
pub fn books_agree(ledger: Ledger, counters: LentCounters<'_>, settings: Settings) -> bool
    ensures { result ≡ books_agree settings.mode settings.remap ledger counters.entry.placements.now counters.entry.singles.now counters.entry.multi.now }
{
    roles_agree(ledger, settings)
        && sum_agrees(counters.placements, ledger.placements)
        && sum_agrees(counters.singles, ledger.singles)
        && sum_agrees(counters.multi, ledger.multi)
}
