//! Certificates of builds that are refused: what a pass over the keys gathers of a 2-core, with its equal keys, the text of it, and what
//! is read back from such a text.
#![tactic(auto)]

pub use cm_witness_gather::{
    Algorithm, Certificate, CoreEdge, EqualKeys, GatherFault, InBucket, Pair, count_candidates,
    each_paired, equal_pairs, gather, gather_with, reports,
};
pub use cm_witness_report::{
    Report, ReportFault, bad_line, read_back, read_report, reads_reports, worked_reports,
};
