// Reads mapped one after the other, each into its share of the entries.
#![tactic(auto)]

ghost use Rattle.std.specs.Prelude.{◌≡◌, true, ◌+◌, ◌*◌, ◌≤◌, length};
ghost use Rattle.lists.specs.Cut.{ends_within};
ghost use Rattle.index_model.specs.Index.{sequences_in};
ghost use Rattle.map_by_index.specs.Steps.{Mappable};
ghost use Rattle.batch_reads.specs.Shares.{ShareMapped, RankedMapped};

use approach::approach;
use batch_rows::write_row;
use identifiers::sequences::sequence_at;
use index_columns::LentIndex;
use index_model::ranked::RankedTargets;
use indexed_mapper::map::check_read;
use map_answers::answer::Mapping;
use map_search::search_part;
use promises::refusal::Refusal;

pub mod approach;

// Maps a read into `width` numbers from a place on; the first lookups begin near places that are told.
fn map_share(
    entries: &mut [u64],
    from: usize,
    width: usize,
    targets: RankedTargets<'_, '_>,
    index: LentIndex<'_>,
    q: usize,
    read: &[u8],
    limit: u64,
    plus_near: usize,
    minus_near: usize,
) -> Result<Mapping, Refusal>
    requires { Mappable q targets.bases.now targets.ends.now targets.ranked.now index.keys.now index.ranks.now index.positions.now × (from + width ≤ length entries.old) }
    ensures { ShareMapped q (sequences_in targets.entry) targets.entry.ranked.now read.now limit from width result entries.old entries.new }
{
    check_read(read, limit)?;
    search_part(
        entries, from, width, targets, index, q, read, limit, plus_near, minus_near,
    )
}

// Maps each read into its share of the entries, and writes its row.
pub fn map_shares(
    rows: &mut [u64],
    entries: &mut [u64],
    targets: RankedTargets<'_, '_>,
    index: LentIndex<'_>,
    q: usize,
    reads: &[u8],
    read_ends: &[usize],
    limit: u64,
    share: usize,
)
    requires mappable { Mappable q targets.bases.now targets.ends.now targets.ranked.now index.keys.now index.ranks.now index.positions.now × (ends_within 0 (length reads.now) read_ends.now ≡ true) }
    requires rows_len { (length rows.old ≡ 8 * length read_ends.now) × (4 * share * length read_ends.now ≤ length entries.old) }
    ensures { RankedMapped q (sequences_in targets.entry) targets.entry.ranked.now limit reads.now read_ends.now share rows.new entries.old entries.new }
{
    let mut plus = [0usize; 32];
    let mut minus = [0usize; 32];
    for i in 0..read_ends.len() {
        approach(&mut plus, &mut minus, index.keys, q, reads, read_ends, i);
        let width = 4 * share;
        let read = sequence_at(reads, read_ends, i);
        let answer = map_share(
            entries,
            width * i,
            width,
            targets,
            index,
            q,
            read,
            limit,
            plus[i % 32],
            minus[i % 32],
        );
        write_row(rows, 8 * i, answer);
    }
}
