//! How much a source may have.

/// How many values a `printf` may write.
pub const PRINTED_LIMIT: usize = 16;

/// How many parts a `sections` may have.
pub const SECTION_LIMIT: usize = 256;

/// How many functions a source may define.
pub const FUNCTION_LIMIT: usize = 256;

/// How many parameters a function may have.
pub const PARAMETER_LIMIT: usize = 16;

/// How many cells the globals of a source may have. A scalar has one.
pub const GLOBAL_CELL_LIMIT: u32 = 65_536;
