//! Keys that wait for their buckets in a spill.
ghost use Rattle.std.specs.Prelude.{is_some};
ghost use Rattle.cm_brz_split.specs.Spilled.{HoldsKnown};
ghost use Rattle.cm_spill.specs.Damage.{IsDamageOf};
ghost use Rattle.cm_spill.specs.Stores.{IsNextBucket, given_last_of, given_of};

use crate::store::Store;
use cm_io::{KeyBuf, Spill};
use cm_spill::{Runs, SpillError};

impl<P: Spill> Store for Runs<P> {
    ghost holds = { HoldsKnown };

    ghost known = { λ s. is_some s.known };

    ghost faults = { λ s. s.faults };

    ghost usable = { λ s. s.usable };

    ghost sealed = { λ s. s.sealed };

    ghost put_last = { λ s. s.last };

    ghost may_ask = { IsNextBucket };

    ghost given = { given_of };

    ghost given_last = { given_last_of };

    ghost end = { λ s. s.read_end };

    ghost damages = { IsDamageOf };

    fn put(&mut self, bucket: u32, line: u32, key: &[u8]) -> Result<(), SpillError> {
        Runs::put(self, bucket, line, key)
    }

    fn seal(&mut self) -> Result<(), SpillError> {
        Runs::seal(self)
    }

    #[inline(always)]
    fn next_of(&mut self, bucket: u32, key: &mut KeyBuf) -> Result<Option<u32>, SpillError> {
        Runs::next_of(self, bucket, key)
    }

    fn read_end(&self) -> u64 {
        Runs::read_end(self)
    }
}
