//! Worked examples of what arguments mean. Each function has an empty body, and its clauses are checked by the prover.
#![tactic(auto, unfolding(crate::specs::Meaning::job_of, cm_words_arguments::specs::Command::with_argument, clap::proofs::OnLiterals::clap_on_literals))]

ghost use Rattle.std.specs.Prelude.{◌≡◌, [], Err, Ok, Some, codes};
ghost use Rattle.cm_judge_words.specs.Examples.{plain};
ghost use Rattle.cm_judge_words.specs.Meaning.{job_of};
ghost use Rattle.cm_words_arguments.specs.Examples.{typed};
ghost use Rattle.cm_words_arguments.specs.declared.fault.UsageFault.TheVariants.{BadValue, Words};
ghost use Rattle.cm_words_values.specs.declared.limits.TheConstants.{ZERO_BYTE};

/// The two files, and options that the command does not have.
pub fn files()
    ensures both { job_of (typed (codes "cmph_judge report keys")) ≡ Ok plain }
    ensures none { job_of (typed (codes "cmph_judge")) ≡ Err Words }
    ensures no_arguments { job_of [] ≡ Err Words }
    ensures report_alone { job_of (typed (codes "cmph_judge report")) ≡ Err Words }
    ensures three { job_of (typed (codes "cmph_judge report keys more")) ≡ Err Words }
    ensures help { job_of (typed (codes "cmph_judge -h report keys")) ≡ Err Words }
    ensures version { job_of (typed (codes "cmph_judge -V")) ≡ Err Words }
    ensures algorithm { job_of (typed (codes "cmph_judge -a bdz report keys")) ≡ Err Words }
{}

/// The values of the options, and the order in which they are refused.
pub fn values()
    ensures first { job_of (typed (codes "cmph_judge -k 3 report keys")) ≡ Ok (record plain { first = Some 3 }) }
    ensures no_first { job_of (typed (codes "cmph_judge -k 0 report keys")) ≡ Err (BadValue 107) }
    ensures zero { job_of (typed (codes "cmph_judge report -z keys")) ≡ Ok (record plain { end = ZERO_BYTE }) }
    ensures ratio { job_of (typed (codes "cmph_judge -c 1.5 report keys")) ≡ Ok (record plain { c = Some 1500000 }) }
    ensures low_ratio { job_of (typed (codes "cmph_judge -c 0.999999 report keys")) ≡ Err (BadValue 99) }
    ensures high_ratio { job_of (typed (codes "cmph_judge -c 10.000001 report keys")) ≡ Err (BadValue 99) }
    ensures least_width { job_of (typed (codes "cmph_judge -b 64 report keys")) ≡ Ok (record plain { b = 64 }) }
    ensures most_width { job_of (typed (codes "cmph_judge -b 700 report keys")) ≡ Ok (record plain { b = 700 }) }
    ensures low_width { job_of (typed (codes "cmph_judge -b 63 report keys")) ≡ Err (BadValue 98) }
    ensures high_width { job_of (typed (codes "cmph_judge -b 701 report keys")) ≡ Err (BadValue 98) }
    ensures order { job_of (typed (codes "cmph_judge -k x -c x -b x report keys")) ≡ Err (BadValue 98) }
    ensures ratio_before_first { job_of (typed (codes "cmph_judge -k x -c x report keys")) ≡ Err (BadValue 99) }
    ensures files_before_values { job_of (typed (codes "cmph_judge -k x report")) ≡ Err Words }
    ensures twice { job_of (typed (codes "cmph_judge -k 1 -k 1 report keys")) ≡ Err Words }
{}
