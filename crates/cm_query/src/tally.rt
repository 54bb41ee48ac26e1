//! The counts of a query.
ghost use Rattle.std.specs.Prelude.{◌≡◌, ◌+◌, ◌<◌, ◌≤◌, ◌^◌};

/// How many keys a query looked up.
#[derive(Clone, Copy, Debug, PartialEq, Eq)]
pub struct Tally {
    /// All keys.
    pub lines: u32,
    /// The keys whose answer an earlier key has.
    pub repeated: u32,
    /// The keys without an answer.
    pub unknown: u32,
}

impl Tally {
    ghost use Rattle.cm_query.specs.Tallies.{counted};

    /// Counts one more key, with this answer, which is repeated or not.
    pub(crate) fn count(&mut self, answer: Option<u32>, repeated: bool)
        requires room { self.old.lines + 1 < 2 ^ 32 }
        requires within { self.old.repeated + self.old.unknown ≤ self.old.lines }
        ensures counted { self.new ≡ counted self.old answer repeated }
        ensures within { self.new.repeated + self.new.unknown ≤ self.new.lines }
    {
        self.lines += 1;
        match answer {
            None => self.unknown += 1,
            Some(_) => {
                if repeated {
                    self.repeated += 1;
                }
            }
        }
    }
}
