ghost use Rattle.std.specs.Prelude.{◌≡◌, ◌<◌, length, slice_index};
ghost use Rattle.code_reach.specs.Reached.{Way};

/// An instruction that tells where it leads of itself, apart from handlers.
pub trait Flow {
    ghost way: { Self → Way };

    /// Whether it goes on to the instruction after it.
    fn goes_on(&self) -> bool
        ensures { result ≡ (way self.now).goes_on };

    /// How many targets it has.
    fn target_count(&self) -> usize
        ensures { result ≡ length (way self.now).targets };

    /// The pc of one of its targets.
    fn target(&self, index: usize) -> u32
        requires { index < length (way self.now).targets }
        ensures { result ≡ slice_index (way self.now).targets index };
}
