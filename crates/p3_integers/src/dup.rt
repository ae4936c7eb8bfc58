//! Values that are cheap to duplicate.
ghost use Rattle.std.specs.Prelude.{◌≡◌};

/// A value that is cheap to duplicate. Upstream's `Dup`; here every `Copy` type has it.
pub trait Dup: Copy {
    /// A copy of the value.
    fn dup(&self) -> Self
        ensures { result ≡ self.now };
}

impl<T: Copy> Dup for T {
    #[inline]
    fn dup(&self) -> Self {
        *self
    }
}
