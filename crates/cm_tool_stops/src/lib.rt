//! Why jobs stop: their statuses and messages.
#![tactic(auto)]

mod dumps;
mod explained;
mod names;
mod printing;
mod reporting;
mod stop;

pub use crate::explained::Explained;
pub use crate::names::Names;
pub use crate::printing::{end_of_text, send_text};
pub use crate::reporting::{
    report, report_no_memory, report_query, report_upgrade, report_usage, say,
};
pub use crate::stop::{QueryStop, Stop, UpgradeStop};
