// What a sheet shows.
ghost use Rattle.std.specs.Prelude.{◌≡◌, [], eqb};
ghost use Rattle.audit_model.specs.Calls.{held_of};
ghost use Rattle.audit_model.specs.Sheet.{shown, run_status, row_shown, sheet_of};

use audit_model::settings::AuditState;
use audit_model::sheet::{PlacementTotals, Sheet, Shown, Status};

// Totals with a status: they are shown where every read was listed whole.
pub fn shown_with(status: Status, totals: PlacementTotals) -> Shown
    ensures { result ≡ shown status totals }
{
    let Status::Complete = status else {
        return Shown {
            status,
            totals: None,
        };
    };
    Shown {
        status,
        totals: Some(totals),
    }
}

// The status of a run.
fn run_status(remap: bool, indeterminate: bool) -> Status
    ensures { result ≡ run_status remap indeterminate }
{
    if !remap {
        return Status::RemapDisabled;
    }
    if indeterminate {
        return Status::CandidateLimit;
    }
    Status::Complete
}

// What is shown of a target with a topology mark, in a run with a status.
pub fn target_shown(status: Status, mark: u8, totals: PlacementTotals) -> Shown
    ensures { result ≡ row_shown status (eqb mark 0) totals }
{
    if mark == 0 {
        return shown_with(status, totals);
    }
    shown_with(Status::ClosedUnsupported, totals)
}

// The sheet of a state.
pub fn sheet_of(state: AuditState) -> Sheet
    ensures { result ≡ sheet_of (held_of state [] [] []) }
{
    let settings = state.settings;
    let ledger = state.ledger;
    let totals = PlacementTotals {
        placements: ledger.placements,
        singles: ledger.singles,
        multi: ledger.multi,
    };
    let mode = settings.mode;
    let remap = settings.remap;
    let table = ledger.table;
    let run = shown_with(run_status(remap, ledger.indeterminate), totals);
    Sheet {
        mode,
        remap,
        table,
        run,
    }
}
