// The targets of groups that stand in entries, and counters raised at them.
#![tactic(auto)]

ghost use Rattle.std.specs.Prelude.{◌≡◌, ◌*◌, ◌≤◌, ◌<◌, length, get_or};
ghost use Rattle.lists.specs.Raised.{raised_at};
ghost use Rattle.audit_counters.specs.Targets.{targets_in, run_ends, counts_at, raised_if, counted_targets, sums, small, room_at, Targeted, RaisableAt, Raisable, Fittable};

use audit_ledger::MAX_COUNTER;

// Whether entry i is one that counts: each is, or the last of each run of one target.
fn counts(entries: &[u64], n: usize, i: usize, each: bool) -> bool
    requires { (4 * n ≤ length entries.now) × (i < n) }
    ensures { result ≡ counts_at each (targets_in n entries.now) i }
{
    each || i + 1 == n || entries[4 * i] != entries[4 * (i + 1)]
}

// How many runs of one target the first n entries have.
pub fn count_runs(entries: &[u64], n: usize) -> u64
    requires { 4 * n ≤ length entries.now }
    ensures { result ≡ length (run_ends (targets_in n entries.now)) }
{
    let mut runs = 0;
    for i in 0..n {
        if counts(entries, n, i, false) {
            runs += 1;
        }
    }
    runs
}

// Raises the counter of one entry's target, if it counts.
fn raise_at(counters: &mut [u64], entries: &[u64], n: usize, i: usize, each: bool)
    requires { RaisableAt n i entries.now counters.old }
    ensures { counters.new ≡ raised_if (counts_at each (targets_in n entries.now) i) (get_or entries.now (4 * i) 0) counters.old }
{
    if counts(entries, n, i, each) {
        counters[entries[4 * i] as usize] += 1;
    }
}

// Raises the counters of the first n entries' targets: of each, or once for each run of one target.
pub fn raise_targets(counters: &mut [u64], entries: &[u64], n: usize, each: bool)
    requires { Raisable each n entries.now counters.old }
    ensures { counters.new ≡ raised_at (counted_targets each (targets_in n entries.now)) counters.old }
{
    for i in 0..n {
        raise_at(counters, entries, n, i, each);
    }
}

// Whether counters stay within 64 bits when marks are added to them.
fn sums_fit(counters: &[u64], marks: &[u64]) -> bool
    requires { length counters.now ≤ length marks.now }
    ensures { result ≡ small (sums counters.now marks.now) }
{
    counters
        .iter()
        .zip(marks)
        .all(|(count, mark)| *mark <= MAX_COUNTER - *count)
}

// Whether they do when they are raised by the targets of two reads: all raises are counted first.
fn totals_fit(
    counters: &[u64],
    first: &[u64],
    n: usize,
    second: &[u64],
    m: usize,
    each: bool,
) -> bool
    requires { Fittable n first.now m second.now counters.now }
    ensures { result ≡ small (raised_at (counted_targets each (targets_in m second.now)) (raised_at (counted_targets each (targets_in n first.now)) counters.now)) }
{
    let mut marks = [0u64; 4096];
    raise_targets(&mut marks, first, n, each);
    raise_targets(&mut marks, second, m, each);
    sums_fit(counters, &marks)
}

// Whether the counters of the first n entries' targets have room for so many raises each.
fn has_room(counters: &[u64], entries: &[u64], n: usize, more: u64) -> bool
    requires { Targeted n entries.now (length counters.now) }
    ensures { result ≡ room_at more (targets_in n entries.now) counters.now }
{
    let most = MAX_COUNTER - more;
    (0..n).all(|i| counters[entries[4 * i] as usize] <= most)
}

// Whether counters stay within 64 bits when they are raised by the targets of two reads. Only where a target's counter is nearly
// full are the raises counted.
pub fn targets_fit(
    counters: &[u64],
    first: &[u64],
    n: usize,
    second: &[u64],
    m: usize,
    each: bool,
) -> bool
    requires { Fittable n first.now m second.now counters.now }
    ensures { result ≡ small (raised_at (counted_targets each (targets_in m second.now)) (raised_at (counted_targets each (targets_in n first.now)) counters.now)) }
{
    let more = (n + m) as u64;
    let roomy = has_room(counters, first, n, more) && has_room(counters, second, m, more);
    roomy || totals_fit(counters, first, n, second, m, each)
}
