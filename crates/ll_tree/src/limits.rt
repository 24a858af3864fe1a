/// The least width of an integer type, `i1`.
pub const MIN_WIDTH: u32 = 1;

/// The greatest width of an integer type, `i32`.
pub const MAX_WIDTH: u32 = 32;
