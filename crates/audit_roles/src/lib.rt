// The order and the roles of a fragment.
#![tactic(auto)]

ghost use Rattle.std.specs.Prelude.{◌≡◌};
ghost use Rattle.audit_model.specs.Settings.{role_number};
ghost use Rattle.audit_model.specs.Fragment.{in_order};
ghost use Rattle.audit_roles.specs.Order.{roles_fit, order_refusal};
ghost use Rattle.promises.specs.Refusal.{test_number};

use audit_codes::role_number;
use audit_model::settings::{AuditInputMode, MateRole};
use promises::refusal::Refusal;

// Whether an ordinal is above the last accepted one: 12 where it is not.
fn in_order(last: Option<u64>, ordinal: u64) -> bool
    ensures { result ≡ in_order last ordinal }
{
    match last {
        None => true,
        Some(n) => n < ordinal,
    }
}

// Whether a fragment has exactly S, or R1 then R2, by mode: 13 where it has not.
fn validate_fragment_roles(
    mode: AuditInputMode,
    count: usize,
    first: MateRole,
    second: MateRole,
) -> bool
    ensures { result ≡ roles_fit mode count (role_number first) (role_number second) }
{
    let one = role_number(first);
    let two = role_number(second);
    match mode {
        AuditInputMode::SingleEnd => {
            if count != 1 {
                return false;
            }
            one == 0
        }
        AuditInputMode::PairedEnd => {
            if count != 2 {
                return false;
            }
            if one != 1 {
                return false;
            }
            two == 2
        }
    }
}

// Tests the order and the roles: 12 and 13, or none.
#[tactic(auto, using(crate::proofs::Roles::twelve, crate::proofs::Roles::thirteen, crate::proofs::Roles::in_place))]
pub fn check_order(
    last: Option<u64>,
    ordinal: u64,
    mode: AuditInputMode,
    count: usize,
    first: MateRole,
    second: MateRole,
) -> Result<(), Refusal>
    ensures { test_number result ≡ order_refusal last ordinal mode count (role_number first) (role_number second) }
{
    if !in_order(last, ordinal) {
        return Err(Refusal::FragmentOrder);
    }
    if !validate_fragment_roles(mode, count, first, second) {
        return Err(Refusal::MateRoles);
    }
    Ok(())
}
