//! What is said of a function.
ghost use Rattle.std.specs.Prelude.{◌≡◌, [], ◌∷◌, codes, decimal};
ghost use Rattle.cm_io.specs.States.{IsSent};
ghost use Rattle.cm_io.specs.Writing.{joined};
ghost use Rattle.cm_tool_stops.specs.Ends.{Says};
ghost use Rattle.cm_tool.specs.Said.{built_message, cmph, counted};
ghost use Rattle.cm_tool.specs.Summaries.{summary_of};

use crate::program::PROGRAM;
use cm_algo_names::Algorithm;
use cm_bits::Cells;
use cm_func::Func;
use cm_io::Sink;
use cm_tool_stops::say;
use cm_words::BuildJob;
use itoa::Buffer;

/// How many keys and cells a function has, or for BRZ keys and buckets, and its seed.
#[derive(Clone, Copy)]
pub(crate) struct Summary {
    pub keys: u32,
    pub cells: u32,
    pub seed: u32,
}

/// The summary of a function.
pub(crate) fn sum_up(function: &Func) -> Summary
    ensures summary { result ≡ summary_of function.now }
{
    match function {
        Func::Chm(f) => Summary {
            keys: f.keys(),
            cells: f.cells().len(),
            seed: f.seed(),
        },
        Func::Bdz(f) => Summary {
            keys: f.keys(),
            cells: f.cells().len(),
            seed: f.seed(),
        },
        Func::BdzPh(f) => Summary {
            keys: f.keys(),
            cells: f.cells().len(),
            seed: f.seed(),
        },
        Func::Brz(f) => Summary {
            keys: f.keys(),
            cells: f.buckets(),
            seed: f.split(),
        },
    }
}

/// Says what function was built, if that is asked for.
pub(crate) fn say_built<E: Sink>(job: &BuildJob, summary: Summary, err: &mut E)
    ensures says { Says (E.state err.old) (E.state err.new) (built_message job.now summary) }
    ensures sent { (E.state err.old).waits ≡ 0 → IsSent (E.state err.old) (E.state err.new) }
{
    if job.verbose {
        let name = job.algorithm.name().as_bytes();
        say_summary(name, job.algorithm, summary, err);
    }
}

/// Says what function was built, by the name of its algorithm.
fn say_summary<E: Sink>(name: &[u8], algorithm: Algorithm, summary: Summary, err: &mut E)
    ensures says { Says (E.state err.old) (E.state err.new)
        (joined (cmph ∷ codes ": " ∷ name.now ∷ codes " keys " ∷ decimal summary.keys ∷ counted algorithm ∷ decimal summary.cells ∷ codes " seed " ∷ decimal summary.seed ∷ codes "\n" ∷ [])) }
    ensures sent { IsSent (E.state err.old) (E.state err.new) }
{
    let counted: &[u8] = match algorithm {
        Algorithm::Chm | Algorithm::Bdz | Algorithm::BdzPh => b" cells ",
        Algorithm::Brz => b" buckets ",
    };
    let mut keys_buffer = Buffer::new();
    let keys_text = keys_buffer.format(summary.keys).as_bytes();
    let mut cells_buffer = Buffer::new();
    let cells_text = cells_buffer.format(summary.cells).as_bytes();
    let mut seed_buffer = Buffer::new();
    let seed_text = seed_buffer.format(summary.seed).as_bytes();
    say(
        err,
        &[
            PROGRAM.as_bytes(),
            b": ",
            name,
            b" keys ",
            keys_text,
            counted,
            cells_text,
            b" seed ",
            seed_text,
            b"\n",
        ],
    );
}
