//! Worked examples of what arguments mean. Each function has an empty body, and its clauses are checked by the prover.
#![tactic(auto, unfolding(crate::specs::Meaning::job_of, cm_words_arguments::specs::Command::with_argument, clap::proofs::OnLiterals::clap_on_literals))]

ghost use Rattle.std.specs.Prelude.{◌≡◌, [], Err, Ok, Some, codes};
ghost use Rattle.cm_filter_words.specs.Examples.{plain_build, plain_test};
ghost use Rattle.cm_filter_words.specs.Meaning.{job_of};
ghost use Rattle.cm_filter_words.specs.declared.jobs.FilterJob.TheVariants.{Build, Test};
ghost use Rattle.cm_words_arguments.specs.Examples.{typed};
ghost use Rattle.cm_words_arguments.specs.declared.fault.UsageFault.TheVariants.{BadValue, Words};
ghost use Rattle.cm_words_values.specs.declared.limits.TheConstants.{ZERO_BYTE};

/// The keys file, the filter file, and options that the command does not have.
pub fn files()
    ensures test { job_of (typed (codes "cmph_filter keys")) ≡ Ok (Test plain_test) }
    ensures build { job_of (typed (codes "cmph_filter -g keys")) ≡ Ok (Build plain_build) }
    ensures named { job_of (typed (codes "cmph_filter -m set keys")) ≡ Ok (Test (record plain_test { filter = codes "set" })) }
    ensures named_build { job_of (typed (codes "cmph_filter -g -m set keys")) ≡ Ok (Build (record plain_build { filter = codes "set" })) }
    ensures none { job_of (typed (codes "cmph_filter -g")) ≡ Err Words }
    ensures no_arguments { job_of [] ≡ Err Words }
    ensures two { job_of (typed (codes "cmph_filter keys more")) ≡ Err Words }
    ensures help { job_of (typed (codes "cmph_filter -h keys")) ≡ Err Words }
    ensures algorithm { job_of (typed (codes "cmph_filter -a bdz keys")) ≡ Err Words }
{}

/// The values of the options of a build and of a test.
pub fn values()
    ensures first { job_of (typed (codes "cmph_filter -k 3 keys")) ≡ Ok (Test (record plain_test { first = Some 3 })) }
    ensures zero { job_of (typed (codes "cmph_filter keys -z")) ≡ Ok (Test (record plain_test { end = ZERO_BYTE })) }
    ensures ratio { job_of (typed (codes "cmph_filter -g -c 1.5 keys")) ≡ Ok (Build (record plain_build { c = 1500000 })) }
    ensures seed { job_of (typed (codes "cmph_filter -g -s 0 keys")) ≡ Ok (Build (record plain_build { seed = 0 })) }
    ensures count { job_of (typed (codes "cmph_filter -g -r 1000 keys")) ≡ Ok (Build (record plain_build { count = 1000 })) }
    ensures least_width { job_of (typed (codes "cmph_filter -g -w 1 keys")) ≡ Ok (Build (record plain_build { w = 1 })) }
    ensures most_width { job_of (typed (codes "cmph_filter -g -w 16 keys")) ≡ Ok (Build (record plain_build { w = 16 })) }
{}

/// Values that are refused, also in a test, and the order in which they are.
pub fn refusals()
    ensures low_width { job_of (typed (codes "cmph_filter -g -w 0 keys")) ≡ Err (BadValue 119) }
    ensures high_width { job_of (typed (codes "cmph_filter -g -w 17 keys")) ≡ Err (BadValue 119) }
    ensures no_first { job_of (typed (codes "cmph_filter -k 0 keys")) ≡ Err (BadValue 107) }
    ensures high_count { job_of (typed (codes "cmph_filter -g -r 1001 keys")) ≡ Err (BadValue 114) }
    ensures low_ratio { job_of (typed (codes "cmph_filter -g -c 0.99 keys")) ≡ Err (BadValue 99) }
    ensures in_a_test { job_of (typed (codes "cmph_filter -w 17 keys")) ≡ Err (BadValue 119) }
    ensures ratio_before_first { job_of (typed (codes "cmph_filter -k x -c x keys")) ≡ Err (BadValue 99) }
    ensures count_before_seed { job_of (typed (codes "cmph_filter -w x -s x -r x keys")) ≡ Err (BadValue 114) }
    ensures seed_before_width { job_of (typed (codes "cmph_filter -w x -s x keys")) ≡ Err (BadValue 115) }
    ensures files_before_values { job_of (typed (codes "cmph_filter -g -w x")) ≡ Err Words }
    ensures twice { job_of (typed (codes "cmph_filter -k 1 -k 1 keys")) ≡ Err Words }
{}
