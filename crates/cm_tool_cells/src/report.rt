//! The report on keys for which no seed works.

use cm_io::{Failed, Sink};
use cm_tool_building::Saved;
use cm_witness_gather::Certificate;

/// The report on keys for which no seed works: the 2-core under the first, with the equal keys among its edges.
#[derive(Drop)]
pub struct CoreReport {
    /// What is shown.
    pub certificate: Certificate,
}

impl Saved for CoreReport {
    ghost use Rattle.cm_tool_cells.specs.Recipes.{report_bytes};

    ghost bytes = { report_bytes };

    fn save<O: Sink>(&self, out: &mut O) -> Result<(), Failed> {
        self.certificate.write(out)
    }
}
