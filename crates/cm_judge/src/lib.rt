//! The judge of reports: the program whose arguments name a report and the keys by which it is judged.
#![tactic(auto)]

mod driving;
mod examples;
mod judging;
mod loading;
mod printing;
mod program;
mod reporting;
mod stop;
mod top;

pub use crate::driving::judge_job;
pub use crate::examples::{worked_outcomes, worked_texts};
pub use crate::program::PROGRAM;
pub use crate::stop::{BadReport, JudgeStop};
pub use crate::top::judge_run;
pub use cm_judge_words::JudgeJob;
pub use cm_tool_stops::report_no_memory;
