// What commitments are made over.
use kind::checked::Checked;
use kind::kind::Kind;

// The lists G and H, and the element K.
#[derive(Clone, Copy)]
pub struct Bases<'a, K: Kind> {
    pub g: &'a [K::Entry],
    pub h: &'a [K::Entry],
    pub key: K,
}

// The same, with both lists checked.
#[derive(Clone, Copy)]
pub struct CheckedBases<'a, K: Kind> {
    pub g: Checked<'a, K>,
    pub h: Checked<'a, K>,
    pub key: K,
}
