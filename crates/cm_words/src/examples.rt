//! Worked examples of what arguments mean. Each function has an empty body, and its clauses are checked by the prover.
#![tactic(auto, unfolding(crate::specs::Meaning::job_of, cm_words_arguments::specs::Command::with_argument, clap::proofs::OnLiterals::clap_on_literals))]

ghost use Rattle.std.specs.Prelude.{◌≡◌, ◌∷◌, [], Ok, Err, Some, None, true, codes};
ghost use Rattle.cm_algo_names.specs.declared.algorithm.Algorithm.TheVariants.{Bdz, BdzPh, Brz};
ghost use Rattle.cm_words_values.specs.Digits.{millionths_of, whole_of};
ghost use Rattle.cm_words_values.specs.declared.limits.TheConstants.{LINE_FEED, ZERO_BYTE};
ghost use Rattle.cm_words.specs.Examples.{plain_build, plain_query, plain_test, query_of_file, upgrade_of_file};
ghost use Rattle.cm_words.specs.Meaning.{job_of};
ghost use Rattle.cm_words_arguments.specs.Examples.{typed};
ghost use Rattle.cm_words_arguments.specs.declared.fault.UsageFault.TheVariants.{BadValue, NoFile, Words};
ghost use Rattle.cm_words.specs.declared.jobs.Job.TheVariants.{Help, Version, Build, Query, Test, Upgrade};

/// The program's name and files.
pub fn files()
    ensures no_words { job_of [] ≡ Err NoFile }
    ensures name_alone { job_of (typed (codes "cmph")) ≡ Err NoFile }
    ensures any_name { job_of (typed (codes "-g keys")) ≡ Ok (Query plain_query) }
    ensures empty_name { job_of (typed (codes " keys")) ≡ Ok (Query plain_query) }
    ensures file { job_of (typed (codes "cmph keys")) ≡ Ok (Query plain_query) }
    ensures two_files { job_of (typed (codes "cmph keys more")) ≡ Err Words }
    ensures empty_word { job_of (typed (codes "cmph ")) ≡ Ok (Query (query_of_file (codes ""))) }
    ensures two_empty_words { job_of (typed (codes "cmph  ")) ≡ Err Words }
    ensures hyphen { job_of (typed (codes "cmph -")) ≡ Ok (Query (query_of_file (codes "-"))) }
    ensures plain_word { job_of (typed (codes "cmph help")) ≡ Ok (Query (query_of_file (codes "help"))) }
    ensures not_ascii { job_of (codes "cmph" ∷ (195 ∷ 169 ∷ []) ∷ []) ≡ Ok (Query (query_of_file (195 ∷ 169 ∷ []))) }
{}

/// Two hyphens, after which no argument is an option.
pub fn dashes()
    ensures alone { job_of (typed (codes "cmph --")) ≡ Err NoFile }
    ensures before_letter { job_of (typed (codes "cmph -- -g")) ≡ Ok (Query (query_of_file (codes "-g"))) }
    ensures at_end { job_of (typed (codes "cmph keys --")) ≡ Ok (Query plain_query) }
    ensures twice { job_of (typed (codes "cmph -- --")) ≡ Ok (Query (query_of_file (codes "--"))) }
    ensures before_hyphen { job_of (typed (codes "cmph -- -")) ≡ Ok (Query (query_of_file (codes "-"))) }
    ensures two_files { job_of (typed (codes "cmph -- keys more")) ≡ Err Words }
    ensures as_value { job_of (typed (codes "cmph -m -- keys")) ≡ Err Words }
    ensures three { job_of (typed (codes "cmph ---")) ≡ Err Words }
    ensures equals { job_of (typed (codes "cmph --=keys")) ≡ Err Words }
    ensures long_letter { job_of (typed (codes "cmph --g keys")) ≡ Err Words }
    ensures long_help { job_of (typed (codes "cmph --help")) ≡ Err Words }
    ensures long_version { job_of (typed (codes "cmph --version")) ≡ Err Words }
{}

/// Flags.
pub fn flags()
    ensures generate { job_of (typed (codes "cmph -g keys")) ≡ Ok (Build plain_build) }
    ensures verbose { job_of (typed (codes "cmph -g -v keys")) ≡ Ok (Build (record plain_build { verbose = true })) }
    ensures verbose_query { job_of (typed (codes "cmph -v keys")) ≡ Ok (Query plain_query) }
    ensures bundle { job_of (typed (codes "cmph -vg keys")) ≡ Ok (Build (record plain_build { verbose = true })) }
    ensures after_file { job_of (typed (codes "cmph -g keys -v")) ≡ Ok (Build (record plain_build { verbose = true })) }
    ensures repeated { job_of (typed (codes "cmph -g -g keys")) ≡ Err Words }
    ensures repeated_in_bundle { job_of (typed (codes "cmph -gg keys")) ≡ Err Words }
    ensures repeated_help { job_of (typed (codes "cmph -h -h")) ≡ Err Words }
    ensures repeated_verbose { job_of (typed (codes "cmph -g -vv -v keys")) ≡ Ok (Build (record plain_build { verbose = true })) }
    ensures with_value { job_of (typed (codes "cmph -g=1 keys")) ≡ Err Words }
    ensures verbose_with_value { job_of (typed (codes "cmph -v=1 keys")) ≡ Err Words }
    ensures without_file { job_of (typed (codes "cmph -g")) ≡ Err NoFile }
{}

/// Unknown options.
pub fn unknown()
    ensures letter { job_of (typed (codes "cmph -t 2 keys")) ≡ Err Words }
    ensures capital { job_of (typed (codes "cmph -G keys")) ≡ Err Words }
    ensures hyphen_in_bundle { job_of (typed (codes "cmph -g-v keys")) ≡ Err Words }
    ensures equals { job_of (typed (codes "cmph -=")) ≡ Err Words }
    ensures digit { job_of (typed (codes "cmph -1 keys")) ≡ Err Words }
    ensures not_ascii { job_of (codes "cmph" ∷ (45 ∷ 195 ∷ 169 ∷ []) ∷ []) ≡ Err Words }
{}

/// The value of an option: where it stands.
pub fn values()
    ensures next_word { job_of (typed (codes "cmph -k 3 keys")) ≡ Ok (Query (record plain_query { first = Some 3 })) }
    ensures attached { job_of (typed (codes "cmph -k3 keys")) ≡ Ok (Query (record plain_query { first = Some 3 })) }
    ensures equals { job_of (typed (codes "cmph -k=3 keys")) ≡ Ok (Query (record plain_query { first = Some 3 })) }
    ensures after_file { job_of (typed (codes "cmph keys -k 3")) ≡ Ok (Query (record plain_query { first = Some 3 })) }
    ensures bundle { job_of (typed (codes "cmph -vgm f keys")) ≡ Ok (Build (record plain_build { function = codes "f"; verbose = true })) }
    ensures bundle_attached { job_of (typed (codes "cmph -gmf keys")) ≡ Ok (Build (record plain_build { function = codes "f" })) }
    ensures missing { job_of (typed (codes "cmph keys -m")) ≡ Err Words }
    ensures option_as_value { job_of (typed (codes "cmph -m -g keys")) ≡ Err Words }
    ensures file_as_value { job_of (typed (codes "cmph -m keys")) ≡ Err NoFile }
    ensures repeated { job_of (typed (codes "cmph -s 1 -s 2 keys")) ≡ Err Words }
    ensures repeated_same { job_of (typed (codes "cmph -m f -m f keys")) ≡ Err Words }
    ensures empty { job_of (typed (codes "cmph -m  keys")) ≡ Ok (Query (record plain_query { function = codes "" })) }
    ensures empty_equals { job_of (typed (codes "cmph -m= keys")) ≡ Ok (Query (record plain_query { function = codes "" })) }
    ensures two_equals { job_of (typed (codes "cmph -m==f keys")) ≡ Ok (Query (record plain_query { function = codes "=f" })) }
    ensures hyphen { job_of (typed (codes "cmph -m - keys")) ≡ Ok (Query (record plain_query { function = codes "-" })) }
    ensures attached_hyphen { job_of (typed (codes "cmph -m-f keys")) ≡ Ok (Query (record plain_query { function = codes "-f" })) }
    ensures attached_blank { job_of (codes "cmph" ∷ codes "-m f" ∷ codes "keys" ∷ []) ≡ Ok (Query (record plain_query { function = codes " f" })) }
{}

/// The paths of files and of the spill's directory.
pub fn paths()
    ensures function { job_of (typed (codes "cmph -m f keys")) ≡ Ok (Query (record plain_query { function = codes "f" })) }
    ensures usual { job_of (typed (codes "cmph -g dir/k.txt")) ≡ Ok (Build (record plain_build { keys = codes "dir/k.txt"; function = codes "dir/k.txt.mph" })) }
    ensures directory { job_of (typed (codes "cmph -g -d tmp keys")) ≡ Ok (Build (record plain_build { dir = codes "tmp" })) }
    ensures empty_directory { job_of (typed (codes "cmph -g -d= keys")) ≡ Ok (Build (record plain_build { dir = codes "" })) }
    ensures directory_of_query { job_of (typed (codes "cmph -d tmp keys")) ≡ Ok (Query plain_query) }
{}

/// The forms of whole numbers.
pub fn whole_numbers()
    ensures zeros { job_of (typed (codes "cmph -k 0000000003 keys")) ≡ Ok (Query (record plain_query { first = Some 3 })) }
    ensures eleven_digits { job_of (typed (codes "cmph -k 00000000003 keys")) ≡ Err (BadValue 107) }
    ensures plus { job_of (typed (codes "cmph -s +1 keys")) ≡ Err (BadValue 115) }
    ensures minus { job_of (typed (codes "cmph -s -1 keys")) ≡ Err Words }
    ensures minus_attached { job_of (typed (codes "cmph -s-1 keys")) ≡ Err (BadValue 115) }
    ensures blank { job_of (codes "cmph" ∷ codes "-s" ∷ codes " 1" ∷ codes "keys" ∷ []) ≡ Err (BadValue 115) }
    ensures blank_after { job_of (codes "cmph" ∷ codes "-s" ∷ codes "1 " ∷ codes "keys" ∷ []) ≡ Err (BadValue 115) }
    ensures empty { job_of (typed (codes "cmph -s  keys")) ≡ Err (BadValue 115) }
    ensures empty_equals { job_of (typed (codes "cmph -s= keys")) ≡ Err (BadValue 115) }
    ensures point { job_of (typed (codes "cmph -s 1.0 keys")) ≡ Err (BadValue 115) }
    ensures letter { job_of (typed (codes "cmph -s 1k keys")) ≡ Err (BadValue 115) }
    ensures hexadecimal { job_of (typed (codes "cmph -s 0x1 keys")) ≡ Err (BadValue 115) }
    ensures exact { whole_of 3 10 (codes "007") ≡ Some 7 }
    ensures least { whole_of 3 10 (codes "3") ≡ Some 3 }
    ensures most { whole_of 3 10 (codes "10") ≡ Some 10 }
    ensures less { whole_of 3 10 (codes "2") ≡ None }
    ensures more { whole_of 3 10 (codes "11") ≡ None }
{}

/// The ranges of whole numbers.
pub fn ranges()
    ensures first_least { job_of (typed (codes "cmph -k 1 keys")) ≡ Ok (Query (record plain_query { first = Some 1 })) }
    ensures first_most { job_of (typed (codes "cmph -k 4294967295 keys")) ≡ Ok (Query (record plain_query { first = Some 4294967295 })) }
    ensures first_less { job_of (typed (codes "cmph -k 0 keys")) ≡ Err (BadValue 107) }
    ensures first_more { job_of (typed (codes "cmph -k 4294967296 keys")) ≡ Err (BadValue 107) }
    ensures seed_least { job_of (typed (codes "cmph -g -s 0 keys")) ≡ Ok (Build (record plain_build { seed = 0 })) }
    ensures seed_most { job_of (typed (codes "cmph -g -s 4294967295 keys")) ≡ Ok (Build (record plain_build { seed = 4294967295 })) }
    ensures seed_more { job_of (typed (codes "cmph -g -s 4294967296 keys")) ≡ Err (BadValue 115) }
    ensures count_least { job_of (typed (codes "cmph -g -r 1 keys")) ≡ Ok (Build (record plain_build { count = 1 })) }
    ensures count_most { job_of (typed (codes "cmph -g -r 1000 keys")) ≡ Ok (Build (record plain_build { count = 1000 })) }
    ensures count_less { job_of (typed (codes "cmph -g -r 0 keys")) ≡ Err (BadValue 114) }
    ensures count_more { job_of (typed (codes "cmph -g -r 1001 keys")) ≡ Err (BadValue 114) }
    ensures buffer_two { job_of (typed (codes "cmph -g -M 2 keys")) ≡ Ok (Build (record plain_build { buffer = 2097152 })) }
    ensures buffer_most { job_of (typed (codes "cmph -g -M 1024 keys")) ≡ Ok (Build (record plain_build { buffer = 1073741824 })) }
    ensures buffer_less { job_of (typed (codes "cmph -g -M 0 keys")) ≡ Err (BadValue 77) }
    ensures buffer_more { job_of (typed (codes "cmph -g -M 1025 keys")) ≡ Err (BadValue 77) }
{}

/// Ratios.
pub fn ratios()
    ensures one_place { job_of (typed (codes "cmph -g -c 1.5 keys")) ≡ Ok (Build (record plain_build { c = 1500000 })) }
    ensures two_places { job_of (typed (codes "cmph -g -c 2.09 keys")) ≡ Ok (Build plain_build) }
    ensures units { job_of (typed (codes "cmph -g -c 3 keys")) ≡ Ok (Build (record plain_build { c = 3000000 })) }
    ensures six_places { job_of (typed (codes "cmph -g -c 1.000001 keys")) ≡ Ok (Build (record plain_build { c = 1000001 })) }
    ensures seven_places { job_of (typed (codes "cmph -g -c 1.0000010 keys")) ≡ Err (BadValue 99) }
    ensures least { job_of (typed (codes "cmph -g -c 1 keys")) ≡ Ok (Build (record plain_build { c = 1000000 })) }
    ensures most { job_of (typed (codes "cmph -g -c 10.000000 keys")) ≡ Ok (Build (record plain_build { c = 10000000 })) }
    ensures less { job_of (typed (codes "cmph -g -c 0.999999 keys")) ≡ Err (BadValue 99) }
    ensures more { job_of (typed (codes "cmph -g -c 10.000001 keys")) ≡ Err (BadValue 99) }
    ensures zero_before { job_of (typed (codes "cmph -g -c 01.5 keys")) ≡ Ok (Build (record plain_build { c = 1500000 })) }
    ensures three_digits { job_of (typed (codes "cmph -g -c 001.5 keys")) ≡ Err (BadValue 99) }
    ensures no_place { job_of (typed (codes "cmph -g -c 1. keys")) ≡ Err (BadValue 99) }
    ensures no_digit { job_of (typed (codes "cmph -g -c .5 keys")) ≡ Err (BadValue 99) }
    ensures two_points { job_of (typed (codes "cmph -g -c 1.5.0 keys")) ≡ Err (BadValue 99) }
    ensures comma { job_of (typed (codes "cmph -g -c 1,5 keys")) ≡ Err (BadValue 99) }
    ensures plus { job_of (typed (codes "cmph -g -c +1.5 keys")) ≡ Err (BadValue 99) }
    ensures empty { job_of (typed (codes "cmph -g -c= keys")) ≡ Err (BadValue 99) }
    ensures exponent { job_of (typed (codes "cmph -g -c 1e0 keys")) ≡ Err (BadValue 99) }
    ensures exact { millionths_of (codes "9.99") ≡ Some 9990000 }
{}

/// Algorithms, with the ratio and the b that are usual for them, and the hash function.
pub fn algorithms()
    ensures chm { job_of (typed (codes "cmph -g -a chm keys")) ≡ Ok (Build plain_build) }
    ensures bdz { job_of (typed (codes "cmph -g -a bdz keys")) ≡ Ok (Build (record plain_build { algorithm = Bdz; c = 1230000; b = 7 })) }
    ensures bdz_ph { job_of (typed (codes "cmph -g -a bdz_ph keys")) ≡ Ok (Build (record plain_build { algorithm = BdzPh; c = 1230000 })) }
    ensures bdz_with_ratio { job_of (typed (codes "cmph -g -a bdz -c 2 keys")) ≡ Ok (Build (record plain_build { algorithm = Bdz; c = 2000000; b = 7 })) }
    ensures brz { job_of (typed (codes "cmph -g -a brz keys")) ≡ Ok (Build (record plain_build { algorithm = Brz; c = 1230000; b = 128 })) }
    ensures brz_with_spill { job_of (typed (codes "cmph -g -a brz -c 2 -M 2 -d tmp keys")) ≡ Ok (Build (record plain_build { algorithm = Brz; c = 2000000; b = 128; buffer = 2097152; dir = codes "tmp" })) }
    ensures capitals { job_of (typed (codes "cmph -g -a CHM keys")) ≡ Err (BadValue 97) }
    ensures longer { job_of (typed (codes "cmph -g -a chmx keys")) ≡ Err (BadValue 97) }
    ensures empty { job_of (typed (codes "cmph -g -a= keys")) ≡ Err (BadValue 97) }
    ensures of_query { job_of (typed (codes "cmph -a bdz keys")) ≡ Ok (Query plain_query) }
    ensures hash { job_of (typed (codes "cmph -g -f jenkins keys")) ≡ Ok (Build plain_build) }
    ensures other_hash { job_of (typed (codes "cmph -f md5 keys")) ≡ Err (BadValue 102) }
    ensures hash_capitals { job_of (typed (codes "cmph -f Jenkins keys")) ≡ Err (BadValue 102) }
{}

/// The sampling of ranks.
pub fn sampling()
    ensures least { job_of (typed (codes "cmph -g -a bdz -b 3 keys")) ≡ Ok (Build (record plain_build { algorithm = Bdz; c = 1230000; b = 3 })) }
    ensures most { job_of (typed (codes "cmph -g -a bdz -b 10 keys")) ≡ Ok (Build (record plain_build { algorithm = Bdz; c = 1230000; b = 10 })) }
    ensures less { job_of (typed (codes "cmph -g -a bdz -b 2 keys")) ≡ Err (BadValue 98) }
    ensures more { job_of (typed (codes "cmph -g -a bdz -b 11 keys")) ≡ Err (BadValue 98) }
    ensures of_query { job_of (typed (codes "cmph -a bdz -b 11 keys")) ≡ Ok (Query plain_query) }
    ensures of_chm { job_of (typed (codes "cmph -g -b 11 keys")) ≡ Ok (Build plain_build) }
    ensures of_bdz_ph { job_of (typed (codes "cmph -g -a bdz_ph -b 0 keys")) ≡ Ok (Build (record plain_build { algorithm = BdzPh; c = 1230000 })) }
    ensures most_of_chm { job_of (typed (codes "cmph -g -b 4294967295 keys")) ≡ Ok (Build plain_build) }
    ensures more_of_chm { job_of (typed (codes "cmph -g -b 4294967296 keys")) ≡ Err (BadValue 98) }
    ensures no_number { job_of (typed (codes "cmph -b x keys")) ≡ Err (BadValue 98) }
{}

/// How many keys a bucket has on average.
pub fn widths()
    ensures least { job_of (typed (codes "cmph -g -a brz -b 64 keys")) ≡ Ok (Build (record plain_build { algorithm = Brz; c = 1230000; b = 64 })) }
    ensures most { job_of (typed (codes "cmph -g -a brz -b 700 keys")) ≡ Ok (Build (record plain_build { algorithm = Brz; c = 1230000; b = 700 })) }
    ensures less { job_of (typed (codes "cmph -g -a brz -b 63 keys")) ≡ Err (BadValue 98) }
    ensures more { job_of (typed (codes "cmph -g -a brz -b 701 keys")) ≡ Err (BadValue 98) }
    ensures of_query { job_of (typed (codes "cmph -a brz -b 701 keys")) ≡ Ok (Query plain_query) }
{}

/// Tests, which need no keys file and come before a build.
pub fn tests()
    ensures alone { job_of (typed (codes "cmph -T 5")) ≡ Ok (Test plain_test) }
    ensures least { job_of (typed (codes "cmph -T 1")) ≡ Ok (Test (record plain_test { keys = 1 })) }
    ensures most { job_of (typed (codes "cmph -T 16777216")) ≡ Ok (Test (record plain_test { keys = 16777216 })) }
    ensures less { job_of (typed (codes "cmph -T 0")) ≡ Err (BadValue 84) }
    ensures more { job_of (typed (codes "cmph -T 16777217")) ≡ Err (BadValue 84) }
    ensures no_number { job_of (typed (codes "cmph -T x")) ≡ Err (BadValue 84) }
    ensures missing { job_of (typed (codes "cmph -T")) ≡ Err Words }
    ensures options { job_of (typed (codes "cmph -T 5 -s 7 -r 9 -M 2 -d tmp")) ≡ Ok (Test (record { keys = 5; seed = 7; count = 9; buffer = 2097152; dir = codes "tmp" })) }
    ensures with_file { job_of (typed (codes "cmph -T 5 keys")) ≡ Ok (Test plain_test) }
    ensures two_files { job_of (typed (codes "cmph -T 5 keys more")) ≡ Err Words }
    ensures with_generate { job_of (typed (codes "cmph -g -T 5 -v -m f -k 1 keys")) ≡ Ok (Test plain_test) }
    ensures width { job_of (typed (codes "cmph -b 3 -T 5 -g -a brz")) ≡ Ok (Test plain_test) }
    ensures no_width { job_of (typed (codes "cmph -T 5 -g -a brz -b x")) ≡ Err (BadValue 98) }
    ensures width_before_test { job_of (typed (codes "cmph -T 0 -g -a brz -b 3")) ≡ Err (BadValue 84) }
{}

/// Upgrades, which need the keys file or the function file. They come after a test and before a build.
pub fn upgrades()
    ensures file { job_of (typed (codes "cmph -u keys")) ≡ Ok (Upgrade (upgrade_of_file (codes "keys.mph"))) }
    ensures function { job_of (typed (codes "cmph -u -m f")) ≡ Ok (Upgrade (upgrade_of_file (codes "f"))) }
    ensures both { job_of (typed (codes "cmph -um f keys")) ≡ Ok (Upgrade (upgrade_of_file (codes "f"))) }
    ensures without_file { job_of (typed (codes "cmph -u")) ≡ Err NoFile }
    ensures with_generate { job_of (typed (codes "cmph -u -g -a brz -b 5 keys")) ≡ Ok (Upgrade (upgrade_of_file (codes "keys.mph"))) }
    ensures with_test { job_of (typed (codes "cmph -u -T 5 keys")) ≡ Ok (Test plain_test) }
{}

/// The byte that ends lines. Builds and queries alone have one.
pub fn ends()
    ensures build { job_of (typed (codes "cmph -z -g keys")) ≡ Ok (Build (record plain_build { end = ZERO_BYTE })) }
    ensures query { job_of (typed (codes "cmph -z keys")) ≡ Ok (Query (record plain_query { end = ZERO_BYTE })) }
    ensures test { job_of (typed (codes "cmph -z -T 5")) ≡ Ok (Test plain_test) }
    ensures upgrade { job_of (typed (codes "cmph -zu keys")) ≡ Ok (Upgrade (upgrade_of_file (codes "keys.mph"))) }
{}

/// Arguments that mean more than one thing: the first of them in the order of the tests.
pub fn orders()
    ensures help { job_of (typed (codes "cmph -h")) ≡ Ok Help }
    ensures version { job_of (typed (codes "cmph -V")) ≡ Ok Version }
    ensures help_and_version { job_of (typed (codes "cmph -V -h")) ≡ Ok Help }
    ensures help_in_bundle { job_of (typed (codes "cmph -Vh")) ≡ Ok Help }
    ensures unknown_and_help { job_of (typed (codes "cmph -h -t")) ≡ Err Words }
    ensures help_and_value { job_of (typed (codes "cmph -h -s x")) ≡ Ok Help }
    ensures version_and_value { job_of (typed (codes "cmph -V -s x")) ≡ Ok Version }
    ensures help_and_file { job_of (typed (codes "cmph -h keys")) ≡ Ok Help }
    ensures algorithm { job_of (typed (codes "cmph -s x -r x -M x -k x -f x -c x -b x -a x")) ≡ Err (BadValue 97) }
    ensures sampling { job_of (typed (codes "cmph -s x -r x -M x -k x -f x -c x -b x")) ≡ Err (BadValue 98) }
    ensures ratio { job_of (typed (codes "cmph -s x -r x -M x -k x -f x -c x")) ≡ Err (BadValue 99) }
    ensures hash { job_of (typed (codes "cmph -s x -r x -M x -k x -f x")) ≡ Err (BadValue 102) }
    ensures first { job_of (typed (codes "cmph -s x -r x -M x -k x")) ≡ Err (BadValue 107) }
    ensures buffer { job_of (typed (codes "cmph -s x -r x -M x")) ≡ Err (BadValue 77) }
    ensures count { job_of (typed (codes "cmph -s x -r x")) ≡ Err (BadValue 114) }
    ensures seed { job_of (typed (codes "cmph -T x -s x")) ≡ Err (BadValue 115) }
    ensures test { job_of (typed (codes "cmph -T x")) ≡ Err (BadValue 84) }
    ensures seed_of_test { job_of (typed (codes "cmph -T 5 -s x")) ≡ Err (BadValue 115) }
    ensures help_and_test { job_of (typed (codes "cmph -T 0 -h")) ≡ Ok Help }
    ensures version_and_test { job_of (typed (codes "cmph -T 5 -V")) ≡ Ok Version }
    ensures no_file { job_of (typed (codes "cmph -g -s 1")) ≡ Err NoFile }
{}

/// A build with all options.
pub fn all_options()
    ensures build { job_of (typed (codes "cmph -v -g -a bdz -b 4 -c 1.5 -d tmp -f jenkins -k 2 -M 3 -m f -r 7 -s 0 keys")) ≡ Ok (Build (record { keys = codes "keys"; function = codes "f"; first = Some 2; end = LINE_FEED; algorithm = Bdz; c = 1500000; b = 4; seed = 0; count = 7; buffer = 3145728; dir = codes "tmp"; verbose = true })) }
{}
