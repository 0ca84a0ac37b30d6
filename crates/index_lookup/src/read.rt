// The three numbers of a posting, by its place in the columns.
ghost use Rattle.std.specs.Prelude.{◌≡◌, ◌<◌, length, get_or};

pub fn posting_key(keys: &[u64], i: usize) -> u64
    requires { i < length keys.now }
    ensures { result ≡ get_or keys.now i 0 }
{
    keys[i]
}

pub fn posting_rank(ranks: &[u64], i: usize) -> usize
    requires { i < length ranks.now }
    ensures { result ≡ get_or ranks.now i 0 }
{
    let rank = ranks[i];
    rank as usize
}

pub fn posting_position(positions: &[u64], i: usize) -> usize
    requires { i < length positions.now }
    ensures { result ≡ get_or positions.now i 0 }
{
    let position = positions[i];
    position as usize
}
