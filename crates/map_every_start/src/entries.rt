// The placement entries: four numbers for each group.
ghost use Rattle.std.specs.Prelude.{◌≡◌, ◌∷◌, [], ◌+◌, ◌*◌, ◌≤◌, length};
ghost use Rattle.buffers.specs.Placed.{placed};
ghost use Rattle.map_every_start.specs.Entries.{entry_of, cleared};

use buffers::{clear, write_four};

// Writes entry k.
pub fn write_entry(
    entries: &mut [u64],
    k: usize,
    target: usize,
    start: usize,
    end: usize,
    strand: u64,
)
    requires { 4 * k + 4 ≤ length entries.old }
    ensures { entries.new ≡ placed (4 * k) (entry_of target start end strand) entries.old }
{
    write_four(
        entries,
        4 * k,
        target as u64,
        start as u64,
        end as u64,
        strand,
    );
}

// Sets every entry to zero. Numbers behind the last whole entry stay.
pub fn clear_entries(entries: &mut [u64])
    ensures { entries.new ≡ cleared entries.old }
{
    let n = entries.len() / 4 * 4;
    clear(entries, n);
}
