// A read as it lies on a strand, read in place: backwards on '-', without a reversed copy.
ghost use Rattle.std.specs.Prelude.{◌≡◌, get_or, eqb};
ghost use Rattle.bases.specs.Base.{code_of, Table};
ghost use Rattle.bases.specs.Read.{oriented, LettersAt};

use crate::base::{MARK, code_in, complement_in};

// The code of base i of the bases as they lie on a strand, 0 for '+' and any other number for '-'; the mark past their end.
pub fn oriented_code(table: &[u16; 256], bases: &[u8], strand: u64, i: usize) -> u64
    requires { Table table.now }
    ensures { result ≡ code_of (get_or (oriented strand bases.now) i 0) }
{
    if bases.len() <= i {
        return MARK;
    }
    if strand == 0 {
        code_in(table, bases[i])
    } else {
        code_in(table, complement_in(table, bases[bases.len() - 1 - i]))
    }
}

// Whether a letter is base i of the bases as they lie on a strand, in either case. The last five bits of a letter are 1, 3,
// 7 and 20 for A, C, G and T; of these only complements have the sum 21 or 10.
pub fn oriented_agrees(letter: u8, bases: &[u8], strand: u64, i: usize) -> bool
    requires { LettersAt letter bases.now i }
    ensures { result ≡ eqb (code_of letter) (code_of (get_or (oriented strand bases.now) i 0)) }
{
    if strand != 0 {
        let sum = letter % 32 + bases[bases.len() - 1 - i] % 32;
        return sum == 21 || sum == 10;
    }
    letter % 32 == bases[i] % 32
}
