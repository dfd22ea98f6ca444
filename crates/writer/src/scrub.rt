// A guard over lent numbers that hold secret scalars: when it goes, they are zeros.
ghost use Rattle.std.specs.Prelude.{◌≡◌, length, replicate};

pub(crate) struct Scrub<'a>(pub(crate) &'a mut [u32]);

impl Drop for Scrub<'_> {
    fn drop(self)
        ensures { self.exit.0.now ≡ replicate (length self.entry.0.now) 0 }
    {
        self.0.fill(0);
        let Scrub(_) = self;
    }
}
