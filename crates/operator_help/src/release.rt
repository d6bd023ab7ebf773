/// The version of the program. It stands here alone.
pub const VERSION: &str = "0.1.0";
