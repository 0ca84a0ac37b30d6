// How far bases are looked at for a hint, and how often.
ghost use Rattle.std.specs.Prelude.{◌≡◌, ◌||◌, ◌%◌, ltb, eqb};

// Whether one looks at a place: where the last look showed something, and else at one place in eight, so that looks that show
// nothing cost little.
pub fn looks_again(shown: usize, at: usize) -> bool
    ensures { result ≡ (ltb 0 shown || eqb (at % 8) 0) }
{
    0 < shown || at % 8 == 0
}
