//! How deep a reader goes.

/// The greatest number of constructors, expressions, expressions of SQL and elements within one another.
pub const MAX_NESTING: usize = 256;

/// The greatest number of parentheses around a kind, which no tree shows, and of `$` before a constructor: the stack is
/// memory, and more is want of memory.
pub const MAX_PARENTHESES: usize = 1024;
