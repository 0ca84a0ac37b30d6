// A catalogue as it is lent.

// Identifiers and bases as bytes with ends, and a topology mark for each target.
#[derive(Clone, Copy)]
pub struct LentCatalogue<'a> {
    pub identifiers: &'a [u8],
    pub identifier_ends: &'a [usize],
    pub bases: &'a [u8],
    pub base_ends: &'a [usize],
    pub marks: &'a [u8],
}
