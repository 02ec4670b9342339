// The words that every block begins with.

/// Which word of a block names its class.
pub const CLASS: usize = 0;

/// Which word of a block names its number: that of a creation, or an index. It is 0 in the block of the system.
pub const NUMBER: usize = 1;
