// What one command of a case leaves to the next.
use audit_ledger::Ledger;
use audit_model::settings::{AuditInputMode, AuditState, Settings};
use audit_model::sheet::{Sheet, Shown, Status};

// State and sheet.
#[derive(Clone, Copy)]
pub struct Held {
    pub state: AuditState,
    pub sheet: Sheet,
}

// The counters, the columns of the index, state and sheet.
#[derive(Clone, Copy)]
pub struct Desk {
    pub placements: [u64; 16],
    pub singles: [u64; 16],
    pub multi: [u64; 16],
    pub keys: [u64; 256],
    pub ranks: [u64; 256],
    pub positions: [u64; 256],
    pub held: Held,
}

// No last ordinal, every number zero, and the sheet of nothing.
pub fn nothing_held() -> Held {
    let settings = Settings {
        mode: AuditInputMode::SingleEnd,
        remap: false,
        floor: 0,
        limit: 0,
    };
    let ledger = Ledger {
        table: [0; 18],
        reads: [0; 3],
        placements: 0,
        singles: 0,
        multi: 0,
        indeterminate: false,
    };
    let run = Shown {
        status: Status::RemapDisabled,
        totals: None,
    };
    Held {
        state: AuditState {
            settings,
            last: None,
            ledger,
        },
        sheet: Sheet {
            mode: AuditInputMode::SingleEnd,
            remap: false,
            table: [0; 18],
            run,
        },
    }
}

pub fn with_state(held: Held, state: AuditState) -> Held {
    let sheet = held.sheet;
    Held { state, sheet }
}

pub fn with_sheet(held: Held, sheet: Sheet) -> Held {
    let state = held.state;
    Held { state, sheet }
}
