use bits::Set64;

/// A set of places: the start by a flag, place p from 1 to 64 by the number p - 1.
// By a flag: there are 65 places, one more than a `Set64` has room for, and twice as many bits would make it no plainer.
// Not the set of places of `tables`: a bank stands below tables, and has the start too.
#[derive(Clone, Copy)]
pub struct PlaceSet {
    pub(crate) start: bool,
    pub(crate) rest: Set64,
}
