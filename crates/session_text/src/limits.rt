//! The limits of the numbers and names in lines and replies.

/// The most attempts that `try` may ask for.
pub const MOST_ATTEMPTS: u64 = 16;

/// The largest number in a line or a reply, which is the largest `u64`.
pub const LARGEST: u64 = 18446744073709551615;

/// The largest number of a shard in a reply, which is the largest `u8`.
pub const LARGEST_SHARD: u64 = 255;

/// The largest limit and column in a reply, which is the largest `u32`.
pub const LARGEST_COLUMN: u64 = 4294967295;

/// The largest number of a client in a reply, which is the largest `u32`.
pub const LARGEST_CLIENT: u64 = 4294967295;

/// The most bytes of a name behind its first.
pub const NAME_REST: usize = 31;
