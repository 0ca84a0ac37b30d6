// Sequences by their place.
ghost use Rattle.std.specs.Prelude.{◌≡◌, [], ◌∷◌, ◌<◌, length, get_or};
ghost use Rattle.identifiers.specs.Lent.{lent_cut, PlaceLent};

// Where the sequence that ends at the i-th end starts: at the end before it.
fn start_at(ends: &[usize], i: usize) -> usize
    requires { i < length ends.now }
    ensures { result ≡ get_or (0 ∷ ends.now) i 0 }
{
    if i == 0 { 0 } else { ends[i - 1] }
}

// The sequence that ends at the i-th end.
#[tactic(auto, using(lists::proofs::Cut::ends_at, lists::proofs::Cut::cut_at))]
pub fn sequence_at<'a, 'b>(bytes: &'a [u8], ends: &'b [usize], i: usize) -> &'a [u8]
    requires { PlaceLent bytes.now ends.now i }
    ensures { result.now ≡ get_or (lent_cut bytes.now ends.now) i [] }
{
    let from = start_at(ends, i);
    let end = ends[i];
    &bytes[from..end]
}
