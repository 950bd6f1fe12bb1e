#![tactic(auto)]

// Sheets and strips of tariffs: from bytes to headers and records. All numbers are little-endian.
pub mod header;
pub mod records;
pub mod strip;
