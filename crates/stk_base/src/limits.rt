//! How large an input may be.

/// The most bytes that an input may have. It has no more tokens than bytes.
pub const MOST_BYTES: u64 = 16_777_216;
