//! The tree of a pattern, as it is kept in memory.
use bits::Set64;

/// How often a part comes.
#[derive(Clone, Copy)]
pub enum Times {
    /// `*`
    Star,
    /// `+`
    Plus,
    /// `?`
    Opt,
    /// The place of the `{`, and the low and the high together.
    Counted(usize, (u16, u16)),
}

/// The tree of a pattern.
#[derive(Drop)]
pub enum Node {
    /// An empty branch.
    Empty,
    /// A unit: the place of its first byte, and the codes that it spells.
    Leaf(usize, Set64),
    /// A class: the place of its `[`, the codes that it spells, and the first letter of its first range that runs backwards.
    Class(usize, Set64, Option<usize>),
    /// One part after another.
    Cat(Box<Node>, Box<Node>),
    /// One part or the other.
    Alt(Box<Node>, Box<Node>),
    /// A part and how often it comes.
    Repeat(Box<Node>, Times),
}
