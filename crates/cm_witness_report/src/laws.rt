//! What is read from the text of a report, and which line is bad.
ghost use Rattle.std.specs.Prelude.{◌≡◌, ◌<◌, ◌+◌, ℕ, List, [], ◌∷◌, None, Ok, Err, codes, length};
ghost use Rattle.cm_algo_names.specs.declared.algorithm.Algorithm.TheVariants as algorithm;
ghost use Rattle.cm_io.specs.Writing.{joined};
ghost use Rattle.cm_witness_report.specs.Reading.{reading_of};
ghost use Rattle.cm_witness_report.specs.Reports.{BeginsReport, BeginsWith, IsReport, IsTextOf, Said, core_said, overfull_said, text_of};

/// The text of a report is read as what it says.
pub fn read_back()
    ensures { (said : Said) → IsReport said → reading_of (text_of said) ≡ Ok said }
{}

/// Bytes that are read as a report are the text of one.
pub fn reads_reports()
    ensures { (bytes : List ℕ) (said : Said) → reading_of bytes ≡ Ok said → IsTextOf bytes said }
{}

/// The number of a bad line is one more than the number of leading whole lines with which the text of some report begins.
pub fn bad_line()
    ensures begins { (bytes : List ℕ) (n : ℕ) → reading_of bytes ≡ Err n → (lines : List (List ℕ)) × BeginsWith bytes lines × BeginsReport (joined lines) × (length lines + 1 ≡ n) }
    ensures most { (bytes : List ℕ) (n : ℕ) (lines : List (List ℕ)) → reading_of bytes ≡ Err n → BeginsWith bytes lines → BeginsReport (joined lines) → length lines < n }
{}

/// What is read from small reports, and the bad lines of texts that are none.
pub fn worked_reports()
    ensures pair { reading_of (codes "core chm seed 0 edges 2\nedge 1 4 1\nedge 2 4 1\nequal 1 2\n") ≡ Ok (core_said algorithm.Chm None 0 (record { line = 1; first = 4; second = 1; third = None } ∷ record { line = 2; first = 4; second = 1; third = None } ∷ []) (record { first = 1; again = 2 } ∷ [])) }
    ensures no_pair { reading_of (codes "core chm seed 0 edges 1\nedge 2 4 1\n") ≡ Ok (core_said algorithm.Chm None 0 (record { line = 2; first = 4; second = 1; third = None } ∷ []) []) }
    ensures gap { reading_of (codes "core chm seed 0 edges 2\nedge 1 1 7\nedge 3 1 7\nequal 1 3\n") ≡ Ok (core_said algorithm.Chm None 0 (record { line = 1; first = 1; second = 7; third = None } ∷ record { line = 3; first = 1; second = 7; third = None } ∷ []) (record { first = 1; again = 3 } ∷ [])) }
    ensures overfull { reading_of (codes "overfull brz seed 1 bucket 0 keys 1024\n") ≡ Ok (overfull_said 1 0 1024 []) }
    ensures empty { reading_of [] ≡ Err 1 }
    ensures zero { reading_of (codes "core chm seed 00 edges 1\nedge 2 4 1\n") ≡ Err 1 }
    ensures short { reading_of (codes "core chm seed 0 edges 2\nedge 2 4 1\n") ≡ Err 3 }
    ensures unended { reading_of (codes "core chm seed 0 edges 1\nedge 2 4 1") ≡ Err 2 }
    ensures itself { reading_of (codes "overfull brz seed 1 bucket 0 keys 1024\nequal 2 2\n") ≡ Err 2 }
{}
