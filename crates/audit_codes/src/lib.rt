// Modes, roles, statuses and flags by their numbers, both ways.
#![tactic(auto)]

ghost use Rattle.std.specs.Prelude.{◌≡◌};
ghost use Rattle.audit_model.specs.Settings.{role_number};
ghost use Rattle.audit_model.specs.Sheet.{status_number};
ghost use Rattle.audit_codes.specs.Codes.{mode_of, mode_number, role_of, status_of, flag_number};

use audit_model::settings::{AuditInputMode, MateRole};
use audit_model::sheet::Status;

// The mode with a number.
pub fn mode_of(number: u8) -> AuditInputMode
    ensures { result ≡ mode_of number }
{
    if number == 0 {
        return AuditInputMode::SingleEnd;
    }
    AuditInputMode::PairedEnd
}

// The number of a mode.
pub fn mode_number(mode: AuditInputMode) -> u64
    ensures { result ≡ mode_number mode }
{
    match mode {
        AuditInputMode::SingleEnd => 0,
        AuditInputMode::PairedEnd => 1,
    }
}

// The role with a number.
pub fn role_of(number: u8) -> MateRole
    ensures { result ≡ role_of number }
{
    if number == 0 {
        return MateRole::S;
    }
    if number == 1 {
        return MateRole::R1;
    }
    MateRole::R2
}

// The number of a role.
pub fn role_number(role: MateRole) -> usize
    ensures { result ≡ role_number role }
{
    match role {
        MateRole::S => 0,
        MateRole::R1 => 1,
        MateRole::R2 => 2,
    }
}

// The status with a number.
pub fn status_of(number: u64) -> Status
    ensures { result ≡ status_of number }
{
    if number == 0 {
        return Status::Complete;
    }
    if number == 1 {
        return Status::CandidateLimit;
    }
    if number == 2 {
        return Status::RemapDisabled;
    }
    Status::ClosedUnsupported
}

// The number of a status.
pub fn status_number(status: Status) -> u64
    ensures { result ≡ status_number status }
{
    match status {
        Status::Complete => 0,
        Status::CandidateLimit => 1,
        Status::RemapDisabled => 2,
        Status::ClosedUnsupported => 3,
    }
}

// The number of a flag.
pub fn flag_number(flag: bool) -> u64
    ensures { result ≡ flag_number flag }
{
    if flag { 1 } else { 0 }
}
