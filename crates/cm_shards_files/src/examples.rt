//! Worked examples of keys in shards. Each function has an empty body, and its clauses are checked by the prover.
ghost use Rattle.std.specs.Prelude.{◌≡◌, ◌<◌, ◌^◌, [], Some, Ok, Err, codes};
ghost use Rattle.cm_algo_names.specs.declared.algorithm.Algorithm.TheVariants.{Bdz, Chm};
ghost use Rattle.cm_route.specs.Routes.{shard_of};
ghost use Rattle.cm_shards_files.specs.Examples.{file_of_one, five, of_one, shard_of_one, turned, two_shards};
ghost use Rattle.cm_shards_files.specs.Loading.{function_unless};
ghost use Rattle.cm_shards_files.specs.Shards.{key_total, number_in, offset_of, total_of};
ghost use Rattle.cm_shards_files.specs.declared.fault.ShardsFault.TheVariants.{Another};

/// Two keys are in the first of two shards, and one in the second, whose number comes after theirs. A key of no function has any number
/// of its shard.
#[tactic(auto, unfolding(cm_spec::specs::Lookup2::words, cm_spec::specs::Lookup2::finish, cm_spec::specs::Lookup2::absorb, cm_spec::specs::Lookup2::three_lines, cm_spec::specs::Lookup2::left_line, cm_spec::specs::Lookup2::right_line))]
pub fn numbered()
    ensures first { number_in two_shards (codes "b") ≡ Some 0 }
    ensures second { number_in two_shards (codes "apple") ≡ Some 1 }
    ensures third { number_in two_shards (codes "a") ≡ Some 2 }
    ensures foreign { number_in two_shards (codes "pear") ≡ Some 1 }
    ensures after { shard_of two_shards.route (codes "a") ≡ 1 }
    ensures total { total_of two_shards ≡ 3 }
    ensures keys { key_total two_shards ≡ 3 }
    ensures other { number_in turned (codes "b") ≡ Some 0 }
    ensures repeated { number_in turned (codes "apple") ≡ Some 0 }
{}

/// Offsets pass `2^32` without wrapping.
pub fn wide()
    ensures none { offset_of five 0 ≡ 0 }
    ensures past { offset_of five 5 ≡ 4360000000 }
    ensures wide { 2 ^ 32 < offset_of five 5 }
{}

/// A function file is the one of a manifest only if all that the manifest says of it holds.
pub fn checked()
    ensures same { function_unless Chm (shard_of_one 1 1 7) [] (Ok (file_of_one 27)) ≡ Ok of_one }
    ensures longer { function_unless Chm (shard_of_one 1 1 7) [] (Ok (file_of_one 28)) ≡ Err (Another []) }
    ensures digest { function_unless Chm (shard_of_one 1 1 8) [] (Ok (file_of_one 27)) ≡ Err (Another []) }
    ensures keys { function_unless Chm (shard_of_one 2 1 7) [] (Ok (file_of_one 27)) ≡ Err (Another []) }
    ensures span { function_unless Chm (shard_of_one 1 2 7) [] (Ok (file_of_one 27)) ≡ Err (Another []) }
    ensures algorithm { function_unless Bdz (shard_of_one 1 1 7) [] (Ok (file_of_one 27)) ≡ Err (Another []) }
{}
