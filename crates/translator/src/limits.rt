// How large what is made of a sheet can be: theorems of `laws` say that no sheet needs more, and that one needs as much.

// The most flat statements of a sheet.
pub const FLATS: usize = 320;

// The most instructions of a sheet's code.
pub const INSTRUCTIONS: usize = 548;
