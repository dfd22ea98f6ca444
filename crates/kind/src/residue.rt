// A number from 1 to p - 1 whose q-th power modulo p is 1, joined by multiplication modulo p.
ghost use Rattle.kind.specs.Constants.{InSubgroup};

#[derive(Clone, Copy, PartialEq, Eq)]
pub struct Residue {
    pub(crate) v: u32,
    ghost ok: { InSubgroup v },
}
