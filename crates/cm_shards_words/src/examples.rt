//! Worked examples of what arguments mean. Each function has an empty body, and its clauses are checked by the prover.
#![tactic(auto, unfolding(crate::specs::Meaning::job_of, cm_words_arguments::specs::Command::with_argument, clap::proofs::OnLiterals::clap_on_literals))]

ghost use Rattle.std.specs.Prelude.{◌≡◌, ◌∷◌, [], Err, None, Ok, Some, codes, replicate, true};
ghost use Rattle.cm_shards_words.specs.Examples.{plain_ask, plain_join, plain_split};
ghost use Rattle.cm_shards_words.specs.Meaning.{job_of, join_over};
ghost use Rattle.cm_shards_words.specs.declared.jobs.ShardsJob.TheVariants.{Ask, Join, Split};
ghost use Rattle.cm_words_arguments.specs.Examples.{typed};
ghost use Rattle.cm_words_arguments.specs.declared.fault.UsageFault.TheVariants.{BadValue, Words};
ghost use Rattle.cm_words_values.specs.declared.limits.TheConstants.{ZERO_BYTE};

/// A split needs `-n`, a folder, and one file. Options of other jobs are not used.
pub fn splits()
    ensures split { job_of (typed (codes "cmph_shards -n 4 -d out keys")) ≡ Ok (Split plain_split) }
    ensures options_last { job_of (typed (codes "cmph_shards keys -d out -n 4")) ≡ Ok (Split plain_split) }
    ensures one { job_of (typed (codes "cmph_shards -n 1 -d out keys")) ≡ Ok (Split (record plain_split { shards = 1 })) }
    ensures most { job_of (typed (codes "cmph_shards -n 4096 -d out keys")) ≡ Ok (Split (record plain_split { shards = 4096 })) }
    ensures first { job_of (typed (codes "cmph_shards -k 3 -n 4 -d out keys")) ≡ Ok (Split (record plain_split { first = Some 3 })) }
    ensures zero { job_of (typed (codes "cmph_shards -z -n 4 -d out keys")) ≡ Ok (Split (record plain_split { end = ZERO_BYTE })) }
    ensures test_and_manifest { job_of (typed (codes "cmph_shards -t -m all -n 4 -d out keys")) ≡ Ok (Split plain_split) }
    ensures no_folder { job_of (typed (codes "cmph_shards -n 4 keys")) ≡ Err Words }
    ensures no_file { job_of (typed (codes "cmph_shards -n 4 -d out")) ≡ Err Words }
    ensures two_files { job_of (typed (codes "cmph_shards -n 4 -d out keys more")) ≡ Err Words }
{}

/// A join needs `-j`, a manifest, and one or more files, whose order is kept.
pub fn joins()
    ensures join { job_of (typed (codes "cmph_shards -j -m all one")) ≡ Ok (Join plain_join) }
    ensures two { job_of (typed (codes "cmph_shards -j -m all one two")) ≡ Ok (Join (record plain_join { functions = codes "one" ∷ codes "two" ∷ [] })) }
    ensures order { job_of (typed (codes "cmph_shards two -j one -m all two")) ≡ Ok (Join (record plain_join { functions = codes "two" ∷ codes "one" ∷ codes "two" ∷ [] })) }
    ensures counts { job_of (typed (codes "cmph_shards -j -m all -d out one")) ≡ Ok (Join (record plain_join { dir = Some (codes "out") })) }
    ensures others { job_of (typed (codes "cmph_shards -j -z -t -k 3 -n 4 -m all one")) ≡ Ok (Join plain_join) }
    ensures most { join_over (Some (codes "all")) (replicate 4096 (codes "one")) None ≡ Ok (record plain_join { functions = replicate 4096 (codes "one") }) }
    ensures too_many { join_over (Some (codes "all")) (replicate 4097 (codes "one")) None ≡ Err Words }
    ensures no_manifest { job_of (typed (codes "cmph_shards -j one")) ≡ Err Words }
    ensures no_file { job_of (typed (codes "cmph_shards -j -m all")) ≡ Err Words }
{}

/// A query needs a manifest and one file, and so does a test.
pub fn asks()
    ensures query { job_of (typed (codes "cmph_shards -m all keys")) ≡ Ok (Ask plain_ask) }
    ensures test { job_of (typed (codes "cmph_shards -t -m all keys")) ≡ Ok (Ask (record plain_ask { test = true })) }
    ensures first { job_of (typed (codes "cmph_shards -k 3 -m all keys")) ≡ Ok (Ask (record plain_ask { first = Some 3 })) }
    ensures zero { job_of (typed (codes "cmph_shards keys -z -m all")) ≡ Ok (Ask (record plain_ask { end = ZERO_BYTE })) }
    ensures folder { job_of (typed (codes "cmph_shards -d out -m all keys")) ≡ Ok (Ask plain_ask) }
    ensures no_manifest { job_of (typed (codes "cmph_shards keys")) ≡ Err Words }
    ensures no_manifest_of_a_test { job_of (typed (codes "cmph_shards -t keys")) ≡ Err Words }
    ensures two_files { job_of (typed (codes "cmph_shards -m all keys more")) ≡ Err Words }
    ensures no_arguments { job_of [] ≡ Err Words }
    ensures help { job_of (typed (codes "cmph_shards -h keys")) ≡ Err Words }
    ensures version { job_of (typed (codes "cmph_shards -V")) ≡ Err Words }
    ensures algorithm { job_of (typed (codes "cmph_shards -a bdz -m all keys")) ≡ Err Words }
    ensures twice { job_of (typed (codes "cmph_shards -m all -m all keys")) ≡ Err Words }
{}

/// Values that are refused in any job, and the order in which they are.
pub fn refusals()
    ensures no_first { job_of (typed (codes "cmph_shards -k 0 -m all keys")) ≡ Err (BadValue 107) }
    ensures no_shards { job_of (typed (codes "cmph_shards -n 0 -d out keys")) ≡ Err (BadValue 110) }
    ensures many_shards { job_of (typed (codes "cmph_shards -n 4097 -d out keys")) ≡ Err (BadValue 110) }
    ensures in_a_join { job_of (typed (codes "cmph_shards -j -n 4097 -m all one")) ≡ Err (BadValue 110) }
    ensures first_before_shards { job_of (typed (codes "cmph_shards -n x -k x -m all keys")) ≡ Err (BadValue 107) }
    ensures values_before_files { job_of (typed (codes "cmph_shards -n 4097 keys more")) ≡ Err (BadValue 110) }
    ensures clap_before_values { job_of (typed (codes "cmph_shards -n 4097 -d out")) ≡ Err Words }
{}
