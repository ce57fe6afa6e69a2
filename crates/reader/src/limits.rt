// The limits of a text and of a sheet.

// The most bytes of a text, and of a sheet in print.
pub const LONGEST: usize = 16_384;

pub const STATEMENTS: usize = 256;

pub const LOOPS: usize = 32;

// The most LOOPs and WHILEs that a statement stands in.
pub const LEVELS: usize = 8;

// The highest register that a sheet can name, and the largest number.
pub const HIGHEST_REGISTER: usize = 31;

pub const LARGEST_NUMBER: u32 = 999_999;
