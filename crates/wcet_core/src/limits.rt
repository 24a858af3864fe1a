/// The most bytes of a file.
pub const FILE_LIMIT: u64 = 4_194_304;

/// The most bytes of a table of costs.
pub const COSTS_LIMIT: u64 = 1_048_576;

/// The most bits of parameters in all of which `analyse` tries each argument.
pub const TRIAL_BITS: u32 = 16;

/// The most bits of parameters in all of which `brute` tries each argument.
pub const BRUTE_BITS: u32 = 20;
