//! How the function of a job is built.
ghost use Rattle.std.specs.Prelude.{◌≡◌};
ghost use Rattle.cm_tool_builds.specs.Plans.{IsPlan};
ghost use Rattle.cm_tool.specs.Jobs.{plan_for};
ghost use Rattle.cm_words.specs.Limits.{IsBuild};

use cm_tool_builds::Plan;
use cm_words::BuildJob;

/// The plan of a job.
pub(crate) fn plan_of(job: &BuildJob) -> Plan
    requires job { IsBuild job.now }
    ensures plan { result ≡ plan_for job.now }
    ensures valid { IsPlan result }
{
    Plan {
        algorithm: job.algorithm,
        c: job.c,
        b: job.b,
        buffer: job.buffer,
    }
}
