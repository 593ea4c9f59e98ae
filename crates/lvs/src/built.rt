//! How the program was built.

/// What `version` says of it: `rt run` and `rt ci` leave a program only where all of it is proved;
/// tools/build puts another sentence here.
pub const BUILT: &str = "proved, where rt run or rt ci left it; by rt try it isn't\n";
