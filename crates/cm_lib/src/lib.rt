//! Perfect hash functions for Rattle programs: the crate that a caller lists, with what it needs of those below. It has no code of its own.
//!
//! In the order of use:
//!
//! 1. **A pass over keys.** `LentKeys` has keys that stand in memory, one after another. `Keys` has the lines of a `Source`: of a
//!    `MemSource`, or of a file that a `FileDisk` opened. Other keys are an impl of `KeyPass`.
//! 2. **A build.** `func_of` returns the function of the keys by a `Plan`, or a `FuncFault`. It takes the `Disk` on which BRZ makes its
//!    spill; the other algorithms leave it as it is, and a `MemDisk` without room will do for them.
//! 3. **Numbers.** `answer` returns the number of a key. A `Batch` looks several keys of a pass up at a time, and `places_of_four` of
//!    `Answers` four keys.
//! 4. **A file.** `save` writes a function into a `Sink`, as the `saved_len` bytes of its dump, and `load` reads it from a `Source`, or
//!    returns the first fault of the bytes.
//! 5. **Lent memory.** `open` returns the function that the bytes of a dump are, in these bytes: nothing is copied. One by BRZ needs a slice for an index of
//!    its buckets. `build_into` builds over `LentKeys` and puts the dump into a buffer, of the `dump_len` bytes that it has; `build_brz_into` does
//!    so by BRZ, with the spill in a buffer too. `answers_into` puts the numbers of many keys, or their shards by a `Route`, into a slice.
//!
//! Clauses find the definitions in `Rattle.cm_lib.specs.Terms`. The calls of `laws` do nothing, and have what the proof of a caller needs.
#![tactic(auto)]

pub mod laws;

// Passes over keys.
pub use cm_io::{KeyBuf, KeyFault, KeyPass, MAX_KEY_LEN, MAX_KEYS};
pub use cm_keys::{Keys, LINE_END};
pub use cm_keys_lent::{EndsFault, LentKeys};

// Builds.
pub use cm_algo_names::Algorithm;
pub use cm_brz::{MAX_BYTES, MAX_WIDTH, MIN_BYTES, MIN_WIDTH};
pub use cm_tool_builds::{FuncFault, Plan, func_of};
pub use cm_witness_gather::{Certificate, CoreEdge, InBucket, Pair};

// Functions and their answers.
pub use cm_algo_scheme::{Answers, Place, answer};
pub use cm_func::Func;
pub use cm_query_batch::Batch;

// The dumps of functions.
pub use cm_dump::{LoadFault, load, save, saved_len};

// Functions, builds and answers in lent memory.
pub use cm_dump_lent::{Lent, OpenFault, open};
pub use cm_lib_lent::{
    LentFault, NONE, Route, answers_into, build_brz_into, build_into, dump_len, number_or_none,
};

// What keys and dumps are read from and written to: the traits, in memory, and real files.
pub use cm_io::{Disk, DiskFault, Failed, Sink, Source, Spill};
pub use cm_io_memory::{MemSink, MemSource, MemSpill};
pub use cm_outer::MemDisk;
pub use cm_real::FileDisk;
