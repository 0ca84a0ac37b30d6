// The first steps of a job: its settings, its targets, and the opening.
#![tactic(auto)]

ghost use Rattle.std.specs.Prelude.{◌≡◌, ◌∷◌, ◌+◌, ◌≤◌, length};
ghost use Rattle.catalogue.specs.Catalogue.{catalogue_in};
ghost use Rattle.audit_ledger.specs.Booking.{counters_in};
ghost use Rattle.catch_targets.specs.Supplied.{lent_supply, left_supply};
ghost use Rattle.catch_opening.specs.Opened.{JobRoom};
ghost use Rattle.catch_advance.specs.Advancing.{step_room};
ghost use Rattle.catch_supply.specs.Supplying.{Begins, SupplyKept, SupplyTold, OpensAt};

use audit_ledger::LentCounters;
use audit_model::settings::Settings;
use catalogue::lent::LentCatalogue;
use catch_advance::{Advance, refuse, wait_or_refuse};
use catch_commands::{Unread, read_settings, read_target};
use catch_opening::{Indexed, open_job};
use catch_progress::Progress;
use catch_targets::{Supply, store_target};
use promises::refusal::Refusal;

// A target is stored, or the targets are as they were.
#[derive(Clone, Copy)]
pub struct Supplied {
    pub advance: Advance,
    pub supply: Supply,
}

// The first command, its code in front of the bytes.
pub fn begin(
    out: &mut [u8],
    at: usize,
    code: u8,
    bytes: &[u8],
    ended: bool,
) -> Result<Settings, Advance>
    requires { at + step_room ≤ length out.old }
    ensures { Begins ended (code ∷ bytes.now) out.old at out.new result }
{
    if code != 1 {
        return Err(refuse(out, at, Refusal::JobStream));
    }
    match read_settings(bytes) {
        Ok(settings) => Ok(settings),
        Err(Unread::Wrong) => Err(refuse(out, at, Refusal::JobStream)),
        Err(Unread::More) => Err(wait_or_refuse(out, at, ended)),
    }
}

// A target, 02 in front of the bytes.
pub fn supply(
    out: &mut [u8],
    identifiers: &mut [u8],
    identifier_ends: &mut [usize],
    bases: &mut [u8],
    base_ends: &mut [usize],
    marks: &mut [u8],
    at: usize,
    bytes: &[u8],
    ended: bool,
    held: Supply,
) -> Supplied
    requires { SupplyKept held identifiers.old identifier_ends.old bases.old base_ends.old marks.old × (at + step_room ≤ length out.old) }
    ensures supply_told { SupplyTold ended (lent_supply held identifiers.old identifier_ends.old bases.old base_ends.old marks.old) (2 ∷ bytes.now) out.old at out.new result
        (left_supply result.supply identifiers.new identifier_ends.new bases.new base_ends.new marks.new) }
    ensures supply_kept { SupplyKept result.supply identifiers.new identifier_ends.new bases.new base_ends.new marks.new }
{
    match read_target(bytes, held.targets, held.bases) {
        Err(Unread::Wrong) => Supplied {
            advance: refuse(out, at, Refusal::JobStream),
            supply: held,
        },
        Err(Unread::More) => Supplied {
            advance: wait_or_refuse(out, at, ended),
            supply: held,
        },
        Ok(head) => {
            let middle = 6 + head.name;
            let end = middle + head.count;
            let supply = store_target(
                identifiers,
                identifier_ends,
                bases,
                base_ends,
                marks,
                held,
                head.topology,
                &bytes[6..middle],
                &bytes[middle..end],
            );
            Supplied {
                advance: Advance {
                    at,
                    progress: Progress::Went(1 + end),
                },
                supply,
            }
        }
    }
}

// What stands behind the targets: the opening is run at 03 and at 05.
pub fn open(
    out: &mut [u8],
    ranked: &mut [usize],
    keys: &mut [u64],
    ranks: &mut [u64],
    positions: &mut [u64],
    counters: LentCounters<'_>,
    catalogue: LentCatalogue<'_>,
    at: usize,
    code: u8,
    settings: Settings,
) -> Result<Indexed, Advance>
    requires { JobRoom ranked.old keys.old ranks.old positions.old catalogue.bases.now × (code ≡ 2 → ⊥) × (at + step_room ≤ length out.old) }
    ensures { OpensAt code (catalogue_in catalogue.entry) settings (counters_in counters.entry) out.old at out.new result
        ranked.new keys.new ranks.new positions.new }
{
    if code != 3 && code != 5 {
        return Err(refuse(out, at, Refusal::JobStream));
    }
    let opening = open_job(
        ranked, keys, ranks, positions, counters, catalogue, settings,
    );
    match opening {
        Ok(indexed) => Ok(indexed),
        Err(refusal) => Err(refuse(out, at, refusal)),
    }
}
