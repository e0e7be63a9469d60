//! Values at their end.

/// Drops a value. That each of its parts is dropped is proved once for its type, and not at each place where it ends.
pub fn done<T: Drop>(_value: T) {}
