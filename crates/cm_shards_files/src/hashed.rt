//! A source whose bytes are hashed as they are read.
ghost use Rattle.std.specs.Prelude.{◌≡◌, ◌≤◌, ◌<◌, ◌^◌, length, take, min, IfOk, OnOk};
ghost use Rattle.std.specs.Option.{ForSome};
ghost use Rattle.cm_io.specs.Causes.{HasCause};
ghost use Rattle.cm_io.specs.Reading.{Gives};
ghost use Rattle.cm_shards_files.specs.Hashing.{HasSum, HashedSource};

use cm_io::{Failed, Source};
use sha2::{Digest, Sha256};
use std::marker::Model;

/// How many bytes were read, and their digest.
#[derive(Clone, Copy, Drop)]
pub(crate) struct Sum {
    /// How many there are, or 2^64 - 1 if there are more.
    pub len: u64,
    /// The SHA-256 digest of them.
    pub digest: [u8; 32],
}

/// A source that is read from its start on, with the SHA-256 of what was read, until it fails.
pub(crate) struct Hashed<S: Source> {
    source: S,
    hasher: Sha256,
    len: u64,
}

impl<S: Source> Model for Hashed<S> {
    ghost use Rattle.std.specs.Prelude.{◌≡◌};
    ghost use Rattle.cm_shards_files.specs.Hashing.{HasHashed, HashedSource};

    ghost Value = { HashedSource };

    ghost view = { λ h. record { told = S.told h.source; place = S.place h.source; faults = S.faults h.source } };

    ghost invariant = { λ h. S.faults h.source ≡ 0 → HasHashed (S.told h.source) (S.place h.source) h.hasher h.len };
}

impl<S: Source> Hashed<S> {
    /// A source at its start, of which nothing was read.
    pub fn new(source: S) -> Hashed<S>
        requires start { ForSome (S.told source) (λ _. S.place source ≡ 0) }
        ensures state { result ≡ record { told = S.told source; place = S.place source; faults = S.faults source } }
    {
        Hashed {
            source,
            hasher: Sha256::new(),
            len: 0,
        }
    }

    /// Returns the source, with the sum of what was read of it, unless it failed.
    pub fn finish(self) -> (S, Sum)
        ensures told { S.told result.0 ≡ self.told }
        ensures faults { S.faults result.0 ≡ self.faults }
        ensures sum { self.faults ≡ 0 → ForSome self.told (λ bytes. HasSum bytes self.place result.1) }
    {
        let Hashed {
            source,
            hasher,
            len,
        } = self;
        let digest = hasher.finalize();
        (source, Sum { len, digest })
    }
}

impl<S: Source> Source for Hashed<S> {
    ghost told = { λ h. h.told };

    ghost place = { λ h. h.place };

    ghost faults = { λ h. h.faults };

    fn read(&mut self, buf: &mut [u8]) -> Result<usize, Failed>
        ensures bound { IfOk result (λ n. n ≤ length buf.old) }
        ensures told { self.new.told ≡ self.old.told }
        ensures gives { IfOk result (λ n. ForSome self.old.told (λ bytes.
            Gives bytes self.old.place self.new.place (length buf.old) n buf.new)) }
        ensures cause { HasCause self.old.faults self.new.faults result }
    {
        let n = self.source.read(buf)?;
        self.hasher.update(&buf[..n]);
        self.len = self.len.saturating_add(n as u64);
        Ok(n)
    }

    fn rewind(&mut self) -> Result<(), Failed>
        ensures told { self.new.told ≡ self.old.told }
        ensures start { OnOk result (self.new.place ≡ 0) }
        ensures cause { HasCause self.old.faults self.new.faults result }
    {
        self.source.rewind()?;
        self.hasher = Sha256::new();
        self.len = 0;
        Ok(())
    }
}
