//! Worked examples of what arguments mean. Each function has an empty body, and its clauses are checked by the prover.
#![tactic(auto, unfolding(crate::specs::Meaning::job_of, cm_words_arguments::specs::Command::with_argument, clap::proofs::OnLiterals::clap_on_literals))]

ghost use Rattle.std.specs.Prelude.{◌≡◌, [], Err, Ok, Some, codes};
ghost use Rattle.cm_store_words.specs.Examples.{plain_build, plain_look};
ghost use Rattle.cm_store_words.specs.Meaning.{job_of};
ghost use Rattle.cm_store_words.specs.declared.jobs.StoreJob.TheVariants.{Build, Look};
ghost use Rattle.cm_words_arguments.specs.Examples.{typed};
ghost use Rattle.cm_words_arguments.specs.declared.fault.UsageFault.TheVariants.{BadValue, Words};
ghost use Rattle.cm_words_values.specs.declared.limits.TheConstants.{ZERO_BYTE};

/// The lines or keys, the store file, and options that the command does not have.
pub fn files()
    ensures look { job_of (typed (codes "cmph_store keys")) ≡ Ok (Look plain_look) }
    ensures build { job_of (typed (codes "cmph_store -g lines")) ≡ Ok (Build plain_build) }
    ensures named { job_of (typed (codes "cmph_store -m set keys")) ≡ Ok (Look (record plain_look { store = codes "set" })) }
    ensures named_build { job_of (typed (codes "cmph_store -g -m set lines")) ≡ Ok (Build (record plain_build { store = codes "set" })) }
    ensures none { job_of (typed (codes "cmph_store -g")) ≡ Err Words }
    ensures no_arguments { job_of [] ≡ Err Words }
    ensures two { job_of (typed (codes "cmph_store lines keys")) ≡ Err Words }
    ensures help { job_of (typed (codes "cmph_store -h keys")) ≡ Err Words }
    ensures version { job_of (typed (codes "cmph_store -V")) ≡ Err Words }
    ensures algorithm { job_of (typed (codes "cmph_store -a bdz keys")) ≡ Err Words }
{}

/// The values of the options of a build and of a look-up.
pub fn values()
    ensures first { job_of (typed (codes "cmph_store -k 3 keys")) ≡ Ok (Look (record plain_look { first = Some 3 })) }
    ensures zero { job_of (typed (codes "cmph_store keys -z")) ≡ Ok (Look (record plain_look { end = ZERO_BYTE })) }
    ensures first_built { job_of (typed (codes "cmph_store -g -k 3 lines")) ≡ Ok (Build (record plain_build { first = Some 3 })) }
    ensures ratio { job_of (typed (codes "cmph_store -g -c 1.5 lines")) ≡ Ok (Build (record plain_build { c = 1500000 })) }
    ensures seed { job_of (typed (codes "cmph_store -g -s 0 lines")) ≡ Ok (Build (record plain_build { seed = 0 })) }
    ensures count { job_of (typed (codes "cmph_store -g -r 1000 lines")) ≡ Ok (Build (record plain_build { count = 1000 })) }
    ensures least_sampling { job_of (typed (codes "cmph_store -g -b 3 lines")) ≡ Ok (Build (record plain_build { b = 3 })) }
    ensures most_sampling { job_of (typed (codes "cmph_store -g -b 10 lines")) ≡ Ok (Build (record plain_build { b = 10 })) }
{}

/// Values that are refused, also in a look-up, and the order in which they are.
pub fn refusals()
    ensures low_sampling { job_of (typed (codes "cmph_store -g -b 2 lines")) ≡ Err (BadValue 98) }
    ensures high_sampling { job_of (typed (codes "cmph_store -g -b 11 lines")) ≡ Err (BadValue 98) }
    ensures no_first { job_of (typed (codes "cmph_store -k 0 keys")) ≡ Err (BadValue 107) }
    ensures high_count { job_of (typed (codes "cmph_store -g -r 1001 lines")) ≡ Err (BadValue 114) }
    ensures low_ratio { job_of (typed (codes "cmph_store -g -c 0.99 lines")) ≡ Err (BadValue 99) }
    ensures in_a_look { job_of (typed (codes "cmph_store -b 11 keys")) ≡ Err (BadValue 98) }
    ensures sampling_before_ratio { job_of (typed (codes "cmph_store -c x -b x keys")) ≡ Err (BadValue 98) }
    ensures ratio_before_first { job_of (typed (codes "cmph_store -k x -c x keys")) ≡ Err (BadValue 99) }
    ensures count_before_seed { job_of (typed (codes "cmph_store -s x -r x keys")) ≡ Err (BadValue 114) }
    ensures files_before_values { job_of (typed (codes "cmph_store -g -b x")) ≡ Err Words }
    ensures twice { job_of (typed (codes "cmph_store -b 7 -b 7 keys")) ≡ Err Words }
{}
