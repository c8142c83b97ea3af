//! The exit statuses.

/// The file is written.
pub const DONE: u8 = 0;

/// The words are refused.
pub const WORDS_REFUSED: u8 = 1;

/// A read failed.
pub const READ_FAULT: u8 = 2;

/// The text, the file or the record is refused.
pub const SCORE_REFUSED: u8 = 3;

/// A write failed.
pub const WRITE_FAULT: u8 = 4;

/// The console failed, so that its text went out in part.
pub const CONSOLE_FAULT: u8 = 5;

/// Want of memory, before anything is written.
pub const OUT_OF_MEMORY: u8 = 6;

/// The text is accepted, and its score has no process of the number.
pub const NO_PROCESS: u8 = 7;
