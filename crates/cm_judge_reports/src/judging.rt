//! Whether a report is true.
ghost use Rattle.std.specs.Prelude.{◌≡◌, ◌⊎◌, ◌<◌, ◌≤◌, None, length, unwrap_or, IfErr, IfOk};
ghost use Rattle.std.specs.Option.{ForSome};
ghost use Rattle.cm_brz_split.specs.Passes.{AreCounted};
ghost use Rattle.cm_io.specs.PassFaults.{IfChanged, IsOtherCount};
ghost use Rattle.cm_judge_core.specs.Walks.{graph_judged};
ghost use Rattle.cm_judge_reports.specs.Faults.{AreSettings, DiffersInBucket, FailsJudge, HasJudgeCause, HasJudgeCounts, HasJudgeFailure, NumbersDiffer, PassesAgain};
ghost use Rattle.cm_judge_verdict.specs.Rising.{RisesBy};
ghost use Rattle.cm_judge_verdict.specs.Verdicts.{first_reason, graph_reasons, verdict_of};
ghost use Rattle.cm_spec.specs.Rule.{IsRatio};
ghost use Rattle.cm_spec.specs.declared.limits.TheConstants.{MAX_KEYS};
ghost use Rattle.cm_witness_report.specs.Reading.{said_of};
ghost use Rattle.cm_witness_report.specs.Reports.{IsReport, core_said};
ghost use Rattle.cm_words_values.specs.Options.{usual_ratio};

use crate::bucket::{BuildSizes, bucket_verdict};
use crate::fault::JudgeFault;
use crate::overfull::{Claim, overfull_verdict};
use cm_algo_names::Algorithm;
use cm_algo_scheme::Scheme;
use cm_algo_seeds::count_all;
use cm_bdz::{BdzPhScheme, BdzScheme};
use cm_chm::ChmScheme;
use cm_graph::{Steps, Xored};
use cm_io::{KeyBuf, KeyPass, PassFault};
use cm_judge_core::core_verdict;
use cm_judge_verdict::{Settings, Verdict};
use cm_witness_gather::Certificate;
use cm_witness_report::Report;
use cm_words_values::ratio;
use std::alloc::Global;
use std::marker::Brand;
use std::sync::ledger::{Blank, Ledger};

/// The ratio of a build by an algorithm, in millionths.
fn ratio_by(settings: &Settings, algorithm: Algorithm) -> u32
    requires settings { AreSettings settings.now }
    ensures ratio { result ≡ unwrap_or settings.now.c (usual_ratio algorithm) }
    ensures within { IsRatio result }
{
    if let Some(c) = settings.c {
        return c;
    }
    match ratio(None, algorithm) {
        Ok(c) => c,
        // An option that isn't given has no bad value.
        Err(_) => unreachable!(),
    }
}

/// The verdict of keys that were counted on the report of a 2-core of all of them, with steps that nobody reads. The buffer is scratch
/// space.
fn graph_verdict<S: Scheme<K>, P: KeyPass, const K: usize, L: Ledger>(
    alloc: Global,
    scheme: &S,
    keys: &mut P,
    key: &mut KeyBuf,
    shown: &Certificate,
    sizes: BuildSizes,
    blank: Blank,
) -> Result<Verdict, PassFault>
    requires name { blank.name ≡ L.name }
    requires parts { blank.parts ≡ L.parts }
    requires some { 0 < blank.parts }
    requires many { (1 ≤ sizes.keys) × (sizes.keys ≤ MAX_KEYS) }
    requires ratio { IsRatio sizes.ratio }
    requires counted { ForSome (P.told keys.old) (AreCounted sizes.keys) }
    requires edges { RisesBy (λ e. e.line) 0 shown.now.edges.items }
    requires equal { RisesBy (λ p. p.again) 0 shown.now.equal.items }
    ensures passes { PassesAgain P.KeyPass keys.old keys.new result }
    ensures verdict { IfOk result (λ verdict. ForSome (P.told keys.old) (λ told. verdict ≡ first_reason (graph_reasons (graph_judged (S.rule scheme.now) told.keys sizes.ratio shown.now.seed) shown.now.edges.items shown.now.equal.items))) }
    ensures changed { IfErr result (λ fault. IfChanged fault (λ first now. (first ≡ sizes.keys) × IsOtherCount first now (P.place keys.new))) }
{
    let mut steps = Steps::<L>::new(blank);
    core_verdict::<S, Xored<K>, P, K, L>(
        alloc,
        scheme,
        keys,
        key,
        shown,
        sizes.keys,
        sizes.ratio,
        &mut steps,
    )
}

/// The verdict of keys that were counted on the report of a 2-core. The buffer is scratch space.
fn verdict_by<P: KeyPass, L: Ledger>(
    alloc: Global,
    shown: &Certificate,
    keys: &mut P,
    key: &mut KeyBuf,
    m: u32,
    settings: &Settings,
    blank: Blank,
) -> Result<Verdict, PassFault>
    requires name { blank.name ≡ L.name }
    requires parts { blank.parts ≡ L.parts }
    requires some { 0 < blank.parts }
    requires many { (1 ≤ m) × (m ≤ MAX_KEYS) }
    requires settings { AreSettings settings.now }
    requires counted { ForSome (P.told keys.old) (AreCounted m) }
    requires report { IsReport (core_said shown.now.algorithm shown.now.place shown.now.seed shown.now.edges.items shown.now.equal.items) }
    ensures passes { PassesAgain P.KeyPass keys.old keys.new result }
    ensures verdict { IfOk result (λ verdict. ForSome (P.told keys.old) (λ told.
        verdict ≡ verdict_of (core_said shown.now.algorithm shown.now.place shown.now.seed shown.now.edges.items shown.now.equal.items) told.keys settings.now)) }
    ensures changed { IfErr result (λ fault. IfChanged fault (λ first now. (first ≡ m) × IsOtherCount first now (P.place keys.new))) }
{
    let sizes = BuildSizes {
        keys: m,
        width: settings.b,
        ratio: ratio_by(settings, shown.algorithm),
    };
    match shown.algorithm {
        Algorithm::Chm => {
            graph_verdict::<_, P, 2, L>(alloc, &ChmScheme {}, keys, key, shown, sizes, blank)
        }
        Algorithm::Bdz => {
            graph_verdict::<_, P, 3, L>(alloc, &BdzScheme {}, keys, key, shown, sizes, blank)
        }
        Algorithm::BdzPh => {
            graph_verdict::<_, P, 3, L>(alloc, &BdzPhScheme {}, keys, key, shown, sizes, blank)
        }
        Algorithm::Brz => match shown.place {
            Some(place) => {
                let mut steps = Steps::<L>::new(blank);
                bucket_verdict::<P, L>(alloc, keys, key, shown, place, sizes, &mut steps)
            }
            // The report of a 2-core by BRZ names a bucket.
            None => unreachable!(),
        },
    }
}

/// The verdict of keys that were counted on a report. The buffer is scratch space.
fn verdict_on<P: KeyPass>(
    alloc: Global,
    report: &Report,
    keys: &mut P,
    key: &mut KeyBuf,
    m: u32,
    settings: &Settings,
) -> Result<Verdict, PassFault>
    requires many { (1 ≤ m) × (m ≤ MAX_KEYS) }
    requires settings { AreSettings settings.now }
    requires counted { ForSome (P.told keys.old) (AreCounted m) }
    requires report { IsReport (said_of report.now) }
    ensures passes { PassesAgain P.KeyPass keys.old keys.new result }
    ensures verdict { IfOk result (λ verdict. ForSome (P.told keys.old) (λ told. verdict ≡ verdict_of (said_of report.now) told.keys settings.now)) }
    ensures changed { IfErr result (λ fault. IfChanged fault (λ first now. ((first ≡ m) × IsOtherCount first now (P.place keys.new)) ⊎ DiffersInBucket P.KeyPass keys.new first now)) }
{
    match report {
        Report::Core(shown) => {
            verdict_by::<P, Brand>(alloc, shown, keys, key, m, settings, Blank::new(1))
        }
        Report::Overfull {
            seed,
            bucket,
            count,
            equal,
        } => {
            let claim = Claim {
                split: *seed,
                bucket: *bucket,
                count: *count,
            };
            overfull_verdict(alloc, keys, key, m, settings.b, claim, equal)
        }
    }
}

/// Whether a report of a refused build is true for the keys of a pass, by the settings of the build, or the first reason why it is false.
/// The report is one that has a text. The keys are passed four times at most: once to be counted, once for the lines of the report, and
/// once each for the graph and for its equal keys.
#[tactic(auto, using(crate::proofs::FaultLemmas::numbers_differ))]
pub fn judge<P: KeyPass>(
    alloc: Global,
    report: &Report,
    keys: &mut P,
    settings: &Settings,
) -> Result<Verdict, JudgeFault>
    requires report { IsReport (said_of report.now) }
    requires settings { AreSettings settings.now }
    ensures told { P.told keys.new ≡ P.told keys.old }
    ensures cause { HasJudgeCause (P.faults keys.old) (P.faults keys.new) result }
    ensures failed { IfErr result (HasJudgeFailure (P.failure keys.new)) }
    ensures counts { IfErr result (HasJudgeCounts P.KeyPass keys.new) }
    ensures differs { IfErr result NumbersDiffer }
    ensures some { IfOk result (λ _. ForSome (P.told keys.old) (λ told. (told.fault ≡ None) × (0 < length told.keys))) }
    ensures verdict { IfOk result (λ verdict. ForSome (P.told keys.old) (λ told. verdict ≡ verdict_of (said_of report.now) told.keys settings.now)) }
    ensures fault { IfErr result (λ fault. ForSome (P.told keys.old) (λ told. FailsJudge told fault)) }
{
    let mut key = KeyBuf::new();
    let m = count_all(keys, &mut key)?;
    if m == 0 {
        return Err(JudgeFault::NoKeys);
    }
    let verdict = verdict_on(alloc, report, keys, &mut key, m, settings)?;
    Ok(verdict)
}
