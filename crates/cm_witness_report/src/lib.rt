//! Reports of refused builds, read back from their text.
#![tactic(auto)]

mod fields;
mod laws;
mod parts;
mod reading;
mod report;
mod steps;
mod window;

pub use crate::laws::{bad_line, read_back, reads_reports, worked_reports};
pub use crate::reading::read_report;
pub use crate::report::{Report, ReportFault};
