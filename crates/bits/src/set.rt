ghost use Rattle.std.specs.Prelude.{◌^◌, ◌<◌};

/// A set of numbers below 64: k is in it where bit k of the word is set.
#[derive(Clone, Copy, PartialEq, Eq, Debug)]
pub struct Set64 {
    pub(crate) bits: u64,
    ghost small: { bits < 2 ^ 64 },
}
