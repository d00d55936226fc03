// The worksheet, which is zero after every call.
ghost use Rattle.reading.specs.Working.{Zero};

// That a worksheet is zero stays a clause of its calls: what the caller lends is a slice of any content and length.
/// A worksheet in use: when it is let go, every number of it is 0.
pub(crate) struct Guard<'a>(pub(crate) &'a mut [u32]);

impl Drop for Guard<'_> {
    fn drop(self)
        ensures { Zero self.exit.0.now }
    {
        self.0.fill(0);
        let Guard(_) = self;
    }
}
