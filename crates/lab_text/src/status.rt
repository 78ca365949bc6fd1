//! The exit statuses of omplab: one table for all of its subcommands.

/// It is done, and nothing bad was found; or help or the version was told.
pub const DONE: u8 = 0;

/// Something bad was found: `hunt` has found a schedule, `explore` a second end, a fault or a race, `races` a race, and
/// `check` a source that is refused; or the text of `port` is refused or held back.
pub const BAD: u8 = 1;

/// The words of the command line are wrong.
pub const WORDS: u8 = 2;

/// A fault, H3 to H5, which standard error tells; or `script` has found that its lines lead elsewhere.
pub const FAULT: u8 = 3;

/// Nothing bad was found, and not all was looked at: `explore` and `races` answer so.
pub const NOT_COMPLETE: u8 = 4;

/// The source is refused, which standard error tells as `check` does. `check` itself has the status 1 then.
pub const REFUSED: u8 = 5;
