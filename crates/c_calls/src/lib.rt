// The calls of an audit on numbers: 26 with nothing written where these are not a state, or cannot hold the answer.
#![tactic(auto)]

ghost use Rattle.std.specs.Prelude.{◌≡◌, ◌&&◌};
ghost use Rattle.audit_codes.specs.Codes.{is_role, is_mark};

pub mod finish;
pub mod fragment;
pub mod open;

// Whether there are a role and a quality mark of these numbers.
pub(crate) fn codes_right(role: u8, mark: u8) -> bool
    ensures { result ≡ (is_role role && is_mark mark) }
{
    if 2 < role {
        return false;
    }
    mark <= 1
}
