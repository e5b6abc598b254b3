//! What a link to a namenode promises.
ghost use Rattle.std.specs.Prelude.{◌≡◌, ℕ, Option};
ghost use base.Fml.{GName};
ghost use Rattle.page_join.specs.Links.{Known, IsLawful, IsCall};

use hs_types::{Answered, Call, CallerId};

/// Leads one caller to one namenode, which others may change between its calls.
pub trait NameLink: Drop {
    /// The number of its namenode, where other links can reach that namenode too.
    ghost number: { Self → Option ℕ };

    /// The name of the reference by which it has its namenode alone, where nobody else can reach that namenode.
    ghost alone: { Self → Option GName };

    /// Its caller, the number of its calls, the limit of its namenode's journal, whether the namenode's store tells its
    /// bytes, and the history that it has seen.
    ghost known: { Self → Known };

    /// What else stays of its namenode from one call to the next, where it has the namenode alone.
    ghost stays: { Self → Self → Type 0 };

    /// Makes a call: the answer is the plain machine's at a place of the namenode's one history behind all that the link has
    /// seen, and the link then has seen that history up to the answer.
    fn call(&mut self, call: Call) -> Answered
        ensures number { number self.new ≡ number self.old }
        ensures alone { alone self.new ≡ alone self.old }
        ensures stays { stays self.old self.new }
        ensures call { IsCall (known self.old) (known self.new) call result };

    /// Its caller.
    fn caller(&self) -> CallerId
        ensures caller { result ≡ (known self.now).caller }
        ensures lawful { IsLawful (known self.now) };

    /// How many calls it has made.
    fn calls(&self) -> u64
        ensures calls { result ≡ (known self.now).calls }
        ensures lawful { IsLawful (known self.now) };

    /// Without a call all stays.
    ghost stays_first: { (link : Self) → stays link link };

    /// What stays over some calls and over those behind them stays over all.
    ghost stays_then: { (before now after : Self) → stays before now → stays now after → stays before after };
}
