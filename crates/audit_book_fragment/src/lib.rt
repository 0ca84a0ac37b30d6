// Reads booked: the targets that their groups name, counters raised, and a ledger with a read more.
#![tactic(auto)]

ghost use Rattle.std.specs.Prelude.{◌≡◌, true};
ghost use Rattle.audit_ledger.specs.Booking.{counters_of, counters_in, lent_counters, left_counters};
ghost use Rattle.audit_counters.specs.Targets.{targets_in};
ghost use Rattle.audit_book_fragment.specs.Books.{single_count, several_count, books_of, counters_raised, counters_posted, tallied_reads, counters_small, CountersRaisable, CountersFittable, FragmentPostable, FragmentRaisable, BooksPosted};

use audit_book_read::{added_by, post_read};
use audit_counters::{raise_targets, targets_fit};
use audit_ledger::{Ledger, LentCounters};

// A read as it is booked: the numbers of its role and of its state, and how many groups are listed.
#[derive(Clone, Copy)]
pub struct ReadTally {
    pub role: usize,
    pub state: usize,
    pub groups: usize,
}

// How many groups raise singles: that of a read with one.
fn single_groups(n: usize) -> usize
    ensures { result ≡ single_count n }
{
    if n == 1 { 1 } else { 0 }
}

// How many groups raise the multi counts: those of a read with several.
fn several_groups(n: usize) -> usize
    ensures { result ≡ several_count n }
{
    if 1 < n { n } else { 0 }
}

// Raises the counters by a read with n groups at the front of the entries.
fn raise_counters(
    placements: &mut [u64],
    singles: &mut [u64],
    multi: &mut [u64],
    entries: &[u64],
    n: usize,
)
    requires { CountersRaisable n entries.now (counters_of placements.old singles.old multi.old) }
    ensures { left_counters placements.new singles.new multi.new ≡ counters_raised (targets_in n entries.now) (lent_counters placements.old singles.old multi.old) }
{
    raise_targets(placements, entries, n, true);
    raise_targets(singles, entries, single_groups(n), true);
    raise_targets(multi, entries, several_groups(n), false);
}

// Whether the counters stay within 64 bits when they are raised by the groups of two reads.
fn counters_fit(
    counters: LentCounters<'_>,
    first: &[u64],
    n: usize,
    second: &[u64],
    m: usize,
) -> bool
    requires { CountersFittable n first.now m second.now (counters_of counters.placements.now counters.singles.now counters.multi.now) }
    ensures { result ≡ counters_small (counters_raised (targets_in m second.now) (counters_raised (targets_in n first.now) (counters_in counters.entry))) }
{
    targets_fit(counters.placements, first, n, second, m, true)
        && targets_fit(
            counters.singles,
            first,
            single_groups(n),
            second,
            single_groups(m),
            true,
        )
        && targets_fit(
            counters.multi,
            first,
            several_groups(n),
            second,
            several_groups(m),
            false,
        )
}

// The ledger with one or two reads whose groups stand in the entries, those of the second `width` numbers behind those of the first, if the
// books have room for them. Nothing is written.
pub fn post_fragment(
    ledger: Ledger,
    counters: LentCounters<'_>,
    entries: &[u64],
    first: ReadTally,
    second: ReadTally,
    two: bool,
    width: usize,
) -> Option<Ledger>
    requires { FragmentPostable first second two width entries.now (counters_of counters.placements.now counters.singles.now counters.multi.now) }
    ensures { BooksPosted (tallied_reads first second two width entries.now) (books_of ledger counters.entry.placements.now counters.entry.singles.now counters.entry.multi.now) result }
{
    let one = post_read(
        ledger,
        first.role,
        first.state,
        added_by(entries, first.groups),
    )?;
    let behind = &entries[width..];
    if !two {
        return counters_fit(counters, entries, first.groups, behind, 0).then_some(one);
    }
    let both = post_read(
        one,
        second.role,
        second.state,
        added_by(behind, second.groups),
    )?;
    counters_fit(counters, entries, first.groups, behind, second.groups).then_some(both)
}

// Raises the counters by the reads of a fragment, for which the books have room.
pub fn raise_fragment(
    placements: &mut [u64],
    singles: &mut [u64],
    multi: &mut [u64],
    entries: &[u64],
    first: ReadTally,
    second: ReadTally,
    two: bool,
    width: usize,
)
    requires { FragmentRaisable first second two width entries.now (counters_of placements.old singles.old multi.old) }
    ensures { left_counters placements.new singles.new multi.new ≡ counters_posted (tallied_reads first second two width entries.now) (lent_counters placements.old singles.old multi.old) }
{
    raise_counters(placements, singles, multi, entries, first.groups);
    if two {
        let behind = &entries[width..];
        raise_counters(placements, singles, multi, behind, second.groups);
    }
}
