//! When the judge says that a report holds, and worked examples.
ghost use Rattle.std.specs.Prelude.{◌≡◌, ◌↔◌, ℕ, List, [], Ok, Err, codes};
ghost use Rattle.cm_judge_verdict.specs.Examples.{judged};
ghost use Rattle.cm_judge_verdict.specs.Truth.{HaveRisingLines, IsTrue};
ghost use Rattle.cm_judge_verdict.specs.Verdicts.{verdict_of};
ghost use Rattle.cm_judge_verdict.specs.declared.verdict.Reason.TheVariants as reason;
ghost use Rattle.cm_judge_verdict.specs.declared.verdict.Settings.{Settings};
ghost use Rattle.cm_judge_verdict.specs.declared.verdict.Verdict.TheVariants.{Fails, Holds};
ghost use Rattle.cm_spec.specs.Examples.{two_empty};
ghost use Rattle.cm_witness_gather.specs.Examples.{empties_and_a};
ghost use Rattle.cm_witness_report.specs.Reports.{IsReport, Said};

/// The judge says that a report holds exactly if it is true.
pub fn holds_if_true()
    ensures { (said : Said) (keys : List (ℕ × List ℕ)) (settings : Settings) → IsReport said → HaveRisingLines keys → (verdict_of said keys settings ≡ Holds) ↔ IsTrue said keys settings }
{}

/// What the judge says of small reports on keys without options: on two empty keys, and on three empty keys with another one.
pub fn worked_verdicts()
    ensures whole { judged (codes "core chm seed 0 edges 2\nedge 1 4 1\nedge 2 4 1\nequal 1 2\n") two_empty ≡ Ok Holds }
    ensures no_pair { judged (codes "core chm seed 0 edges 2\nedge 1 4 1\nedge 2 4 1\n") two_empty ≡ Ok (Fails (reason.NoPair 2)) }
    ensures once { judged (codes "core chm seed 0 edges 1\nedge 2 4 1\n") two_empty ≡ Ok (Fails (reason.Once 1)) }
    ensures missing { judged (codes "core chm seed 0 edges 2\nedge 1 1 7\nedge 3 1 7\nequal 1 3\n") empties_and_a ≡ Ok (Fails (reason.Missing 4)) }
    ensures no_key { judged (codes "core chm seed 0 edges 2\nedge 1 4 1\nedge 3 4 1\n") two_empty ≡ Ok (Fails (reason.NoKey 3)) }
    ensures ends { judged (codes "core chm seed 0 edges 2\nedge 1 1 4\nedge 2 1 4\nequal 1 2\n") two_empty ≡ Ok (Fails (reason.Ends 1)) }
    ensures no_bucket { judged (codes "core brz split 1 bucket 1 seed 0 edges 1\nedge 1 1 4 7\n") two_empty ≡ Ok (Fails reason.NoBucket) }
    ensures not_overfull { judged (codes "overfull brz seed 1 bucket 0 keys 1024\n") two_empty ≡ Ok (Fails reason.NoBucket) }
    ensures empty { judged [] two_empty ≡ Err 1 }
{}
