//! Worked examples.
ghost use Rattle.std.specs.Prelude.{◌≡◌, [], None, Some, codes};
ghost use Rattle.cm_io.specs.Files.{Files};
ghost use Rattle.cm_judge.specs.Examples.{plain_job};
ghost use Rattle.cm_judge.specs.Outcomes.{outcome_in};
ghost use Rattle.cm_judge.specs.Texts.{bad_report, program, verdict_text};
ghost use Rattle.cm_judge_verdict.specs.declared.verdict.Reason.TheVariants.{Count, Ends, Missing, NoBucket, NoKey, NoPair, Once};
ghost use Rattle.cm_judge_verdict.specs.declared.verdict.Verdict.TheVariants.{Fails, Holds};

/// The texts of verdicts, and the message of a file that is no report.
pub fn worked_texts()
    ensures holds { verdict_text Holds ≡ codes "true\n" }
    ensures no_bucket { verdict_text (Fails NoBucket) ≡ codes "false: no such bucket\n" }
    ensures no_key { verdict_text (Fails (NoKey 12)) ≡ codes "false: line 12 is no key\n" }
    ensures ends { verdict_text (Fails (Ends 1)) ≡ codes "false: line 1 has other vertices\n" }
    ensures once { verdict_text (Fails (Once 0)) ≡ codes "false: vertex 0 is touched once\n" }
    ensures missing { verdict_text (Fails (Missing 7)) ≡ codes "false: line 7 is missing\n" }
    ensures count { verdict_text (Fails (Count 1024)) ≡ codes "false: the bucket has 1024 keys\n" }
    ensures no_pair { verdict_text (Fails (NoPair 2)) ≡ codes "false: pair of line 2\n" }
    ensures bad { bad_report program (codes "report.txt") 3 ≡ codes "cmph_judge: report.txt: bad report at line 3\n" }
{}

/// What `cmph_judge r k` comes to by the bytes of r and k.
pub fn worked_outcomes()
    ensures holds { (files : Files) → outcome_in plain_job files (Some (codes "core chm seed 0 edges 2\nedge 1 4 1\nedge 2 4 1\nequal 1 2\n")) (Some (codes "\n\n"))
        ≡ Some (record { status = 0; out = codes "true\n"; err = []; files = files }) }
    ensures fails { (files : Files) → outcome_in plain_job files (Some (codes "core chm seed 0 edges 1\nedge 2 4 1\n")) (Some (codes "\n\n"))
        ≡ Some (record { status = 1; out = codes "false: vertex 1 is touched once\n"; err = []; files = files }) }
    ensures bad { (files : Files) → outcome_in plain_job files (Some (codes "core chm seed 0 edges 2\nedge 1 4 1\n")) None
        ≡ Some (record { status = 3; out = []; err = codes "cmph_judge: r: bad report at line 3\n"; files = files }) }
    ensures no_keys { (files : Files) → outcome_in plain_job files (Some (codes "core chm seed 0 edges 1\nedge 2 4 1\n")) (Some [])
        ≡ Some (record { status = 8; out = []; err = codes "cmph_judge: k: no keys\n"; files = files }) }
    ensures no_report { (files : Files) → outcome_in plain_job files None (Some (codes "\n\n")) ≡ None }
    ensures no_keys_file { (files : Files) → outcome_in plain_job files (Some (codes "core chm seed 0 edges 1\nedge 2 4 1\n")) None ≡ None }
{}
