// A number below the order q, joined by addition modulo q.
ghost use Rattle.std.specs.Prelude.{◌<◌};
ghost use Rattle.kind.specs.Constants.{order};

#[derive(Clone, Copy, PartialEq, Eq)]
pub struct Clear {
    pub(crate) v: u32,
    ghost ok: { v < order },
}
