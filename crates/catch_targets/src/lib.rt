// Targets stored behind each other, as a catalogue is lent.
#![tactic(auto)]

ghost use Rattle.std.specs.Prelude.{◌≡◌, length};
ghost use Rattle.catch_commands.specs.Commands.{with_target};
ghost use Rattle.catch_targets.specs.Supplied.{lent_supply, left_supply, more_supply, SupplyRoom};

use catch_text::put_bytes;

// How many targets there are, how many bytes their identifiers have, and how many bases there are.
#[derive(Clone, Copy)]
pub struct Supply {
    pub targets: usize,
    pub names: usize,
    pub bases: usize,
}

// Stores a target behind the others.
pub fn store_target(
    identifiers: &mut [u8],
    identifier_ends: &mut [usize],
    bases: &mut [u8],
    base_ends: &mut [usize],
    marks: &mut [u8],
    supply: Supply,
    topology: u8,
    name: &[u8],
    sequence: &[u8],
) -> Supply
    requires { SupplyRoom supply name.now sequence.now identifiers.old identifier_ends.old bases.old base_ends.old marks.old }
    ensures marks_value { left_supply result identifiers.new identifier_ends.new bases.new base_ends.new marks.new
        ≡ with_target (lent_supply supply identifiers.old identifier_ends.old bases.old base_ends.old marks.old) topology name.now sequence.now }
    ensures value { result ≡ more_supply supply (length name.now) (length sequence.now) }
{
    let at = supply.targets;
    let names = put_bytes(identifiers, supply.names, name);
    let total = put_bytes(bases, supply.bases, sequence);
    identifier_ends[at] = names;
    base_ends[at] = total;
    marks[at] = topology;
    Supply {
        targets: at + 1,
        names,
        bases: total,
    }
}
