//! Worked examples.
ghost use Rattle.std.specs.Prelude.{◌≡◌, [], None, Some, Ok, Err, codes, false};
ghost use Rattle.cm_io.specs.declared.key_pass.KeyFault.TheVariants.{TooLong};
ghost use Rattle.cm_shards_files.specs.declared.fault.ShardsFault.TheVariants.{Another, BadManifest};
ghost use Rattle.cm_shards_manifest.specs.declared.fault.ManifestFault.TheVariants.{BadMagic, Truncated};
ghost use Rattle.cm_shards_query.specs.Examples.{a_twice, by_length, told_of, two_keys, with_abc};
ghost use Rattle.cm_shards_query.specs.Texts.{load_message, unknown_note, verdict_text};
ghost use Rattle.cm_shards_query.specs.Verdicts.{verdict_of};
ghost use Rattle.cm_shards_query.specs.Written.{reply_by, test_end};
ghost use Rattle.cm_shards_query.specs.declared.verdict.Verdict.TheVariants.{Count, Holds, Repeated, Unknown};
ghost use Rattle.cm_shards_words.specs.Messages.{line_fault_message};

/// The texts of verdicts, and what is said on err.
pub fn worked_texts()
    ensures holds { verdict_text Holds ≡ codes "true\n" }
    ensures unknown { verdict_text (Unknown 12) ≡ codes "false: line 12: key is unknown\n" }
    ensures repeated { verdict_text (Repeated 3 4294967296) ≡ codes "false: line 3: value 4294967296 is repeated\n" }
    ensures count { verdict_text (Count 9 10) ≡ codes "false: 9 keys, not 10\n" }
    ensures note { unknown_note 7 ≡ codes "cmph_shards: line 7: key is unknown\n" }
    ensures long { line_fault_message (codes "k") (TooLong 2) ≡ codes "cmph_shards: k: line 2 is too long\n" }
    ensures magic { load_message (codes "m") (BadManifest BadMagic) ≡ codes "cmph_shards: m: bad manifest: bad magic\n" }
    ensures truncated { load_message (codes "m") (BadManifest (Truncated 20)) ≡ codes "cmph_shards: m: bad manifest: truncated at 20\n" }
    ensures another { load_message (codes "m") (Another (codes "f")) ≡ codes "cmph_shards: f: not the function of the manifest\n" }
{}

/// What a test says of lines, where the number of a key is its length, and keys of more than two bytes have none.
pub fn worked_verdicts()
    ensures holds { verdict_of by_length 2 two_keys ≡ Holds }
    ensures more { verdict_of by_length 3 two_keys ≡ Count 2 3 }
    ensures repeated { verdict_of by_length 3 a_twice ≡ Repeated 3 1 }
    ensures unknown { verdict_of by_length 3 with_abc ≡ Unknown 2 }
    ensures none { verdict_of by_length 0 [] ≡ Holds }
    ensures fault_first { test_end (record { number = by_length; keys = 3 }) (told_of a_twice (Some (TooLong 4))) ≡ Ok (Repeated 3 1) }
    ensures fault_at_end { test_end (record { number = by_length; keys = 2 }) (told_of two_keys (Some (TooLong 3))) ≡ Err (TooLong 3) }
{}

/// What a query writes of lines by the same numbers.
pub fn worked_replies()
    ensures all { reply_by false 10 (record { number = by_length; keys = 2 }) (told_of two_keys None)
        ≡ record { out = codes "a -> 1\n -> 0\n"; notes = []; fault = None; status = 0 } }
    ensures unknown { reply_by false 10 (record { number = by_length; keys = 2 }) (told_of with_abc None)
        ≡ record { out = codes "a -> 1\na -> 1\n"; notes = codes "cmph_shards: line 2: key is unknown\n"; fault = None; status = 1 } }
    ensures long { reply_by false 10 (record { number = by_length; keys = 2 }) (told_of two_keys (Some (TooLong 3)))
        ≡ record { out = codes "a -> 1\n -> 0\n"; notes = []; fault = Some (TooLong 3); status = 8 } }
{}
