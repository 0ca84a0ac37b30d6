// The reads of an answer booked.
#![tactic(auto)]

ghost use Rattle.std.specs.Prelude.{◌≡◌};
ghost use Rattle.audit_ledger.specs.Booking.{counters_of, lent_counters, left_counters};
ghost use Rattle.audit_book_fragment.specs.Books.{books_of, counters_posted};
ghost use Rattle.audit_model.specs.Settings.{role_number};
ghost use Rattle.audit_model.specs.Calls.{held_of, lent_held};
ghost use Rattle.audit_book_answer.specs.Answers.{tally_of, answer_reads, answer_booked, AnswerPostable, AnswerPosted, CountersReady, AnswerRaisable};

use audit_book_fragment::{ReadTally, post_fragment, raise_fragment};
use audit_codes::role_number;
use audit_ledger::{Ledger, LentCounters};
use audit_model::calls::FragmentRows;
use audit_model::settings::{AuditState, MateRole};
use map_answers::answer::{Mapping, state_number};

// A read as it is booked.
fn tally_of(role: MateRole, mapping: Mapping) -> ReadTally
    ensures { result ≡ tally_of (role_number role) mapping }
{
    let state = mapping.state;
    ReadTally {
        role: role_number(role),
        state: state_number(state) as usize,
        groups: mapping.groups,
    }
}

// The ledger with the reads of an answer, each with its groups at the front of its `width` numbers of the entries, if the books have room
// for them. A refused answer has no reads.
pub fn post_answer<E: Copy>(
    ledger: Ledger,
    counters: LentCounters<'_>,
    entries: &[u64],
    answer: Result<FragmentRows, E>,
    first_role: MateRole,
    second_role: MateRole,
    width: usize,
) -> Option<Ledger>
    requires { AnswerPostable answer (role_number first_role) (role_number second_role) width entries.now (counters_of counters.placements.now counters.singles.now counters.multi.now) }
    ensures { AnswerPosted answer (role_number first_role) (role_number second_role) width entries.now (books_of ledger counters.entry.placements.now counters.entry.singles.now counters.entry.multi.now) result }
{
    match answer {
        Err(_) => Some(ledger),
        Ok(FragmentRows::Single(m)) => {
            let one = tally_of(first_role, m);
            post_fragment(ledger, counters, entries, one, one, false, width)
        }
        Ok(FragmentRows::Paired(mates)) => {
            let first = mates.first;
            let second = mates.second;
            post_fragment(
                ledger,
                counters,
                entries,
                tally_of(first_role, first),
                tally_of(second_role, second),
                true,
                width,
            )
        }
    }
}

// Raises the counters by the reads of an answer for which they have room.
fn raise_answer<E: Copy>(
    placements: &mut [u64],
    singles: &mut [u64],
    multi: &mut [u64],
    entries: &[u64],
    answer: Result<FragmentRows, E>,
    first_role: MateRole,
    second_role: MateRole,
    width: usize,
)
    requires { CountersReady answer (role_number first_role) (role_number second_role) width entries.now (counters_of placements.old singles.old multi.old) }
    ensures { left_counters placements.new singles.new multi.new ≡ counters_posted (answer_reads answer (role_number first_role) (role_number second_role) width entries.now) (lent_counters placements.old singles.old multi.old) }
{
    match answer {
        Err(_) => {}
        Ok(FragmentRows::Single(m)) => {
            let one = tally_of(first_role, m);
            raise_fragment(placements, singles, multi, entries, one, one, false, width);
        }
        Ok(FragmentRows::Paired(mates)) => {
            let first = mates.first;
            let second = mates.second;
            raise_fragment(
                placements,
                singles,
                multi,
                entries,
                tally_of(first_role, first),
                tally_of(second_role, second),
                true,
                width,
            );
        }
    }
}

// Books the reads of an answer for which the books have room.
pub fn book_answer<E: Copy>(
    placements: &mut [u64],
    singles: &mut [u64],
    multi: &mut [u64],
    entries: &[u64],
    state: AuditState,
    answer: Result<FragmentRows, E>,
    ordinal: u64,
    first_role: MateRole,
    second_role: MateRole,
    width: usize,
) -> AuditState
    requires { AnswerRaisable answer (role_number first_role) (role_number second_role) width entries.now (held_of state placements.old singles.old multi.old) }
    ensures { held_of result placements.new singles.new multi.new ≡ answer_booked ordinal (answer_reads answer (role_number first_role) (role_number second_role) width entries.now) (lent_held state placements.old singles.old multi.old) }
{
    let settings = state.settings;
    let ledger = post_answer(
        state.ledger,
        LentCounters {
            placements,
            singles,
            multi,
        },
        entries,
        answer,
        first_role,
        second_role,
        width,
    )
    .unwrap();
    raise_answer(
        placements,
        singles,
        multi,
        entries,
        answer,
        first_role,
        second_role,
        width,
    );
    AuditState {
        settings,
        last: Some(ordinal),
        ledger,
    }
}
