//! What every source promises.
ghost use Rattle.std.specs.Prelude.{◌≡◌, true, length, Some, IfOk, OnOk, OnErr, IsErr};
ghost use Rattle.whips_lists.specs.Lists.{front};
ghost use Rattle.whips_source.specs.Asks.{IsAskTo};
ghost use Rattle.whips_source.specs.Sites.{SiteState, after_commit, after_answer, reply_of, IsStoppedAfter};

use std::marker::Model;
use whips_query::{Ask, Reply};
use whips_rel::{NoMemory, Trans};

/// An ask that a source answered, seen as its view and the step of the query.
#[derive(Drop)]
pub struct LogEntry {
    /// The number of the view.
    pub view: u32,
    /// The number of the transaction whose query it is.
    pub update: u64,
    /// The part of the view where the query began.
    pub origin: u32,
    /// The step, counted from 1.
    pub step: u32,
}

impl Model for LogEntry {
    ghost use Rattle.std.specs.Prelude.{ℕ};
    ghost use Rattle.whips_flow.specs.State.{QueryStep};

    ghost Value = { ℕ × QueryStep };

    ghost view = { λ e. (e.view, record { number = e.update; origin = e.origin; step = e.step }) };
}

/// A source. Its ghost member `state` is what callers see of it.
pub trait Site {
    ghost state: { Self → SiteState };

    /// How many transactions are left to make.
    fn left(&self) -> u64
        ensures { result ≡ length (state self.now).left };

    /// Makes the next transaction and hands it out; `None` exactly where none is left, and then nothing changes. After
    /// want of memory the source is stopped.
    fn commit(&mut self) -> Result<Option<Trans>, NoMemory>
        ensures taken { IfOk result (λ t. t ≡ front (state self.old).left) }
        ensures made { OnOk result (state self.new ≡ after_commit (state self.old)) }
        ensures err { OnErr result (IsStoppedAfter (state self.old) (state self.new)) }
        ensures stopped { (state self.old).is_stopped ≡ true → IsErr result };

    /// Answers the step of a query on the relations as they are now. After want of memory nothing has changed.
    fn answer(&mut self, ask: &Ask) -> Result<Reply, NoMemory>
        requires { IsAskTo (state self.old).views (state self.old).source ask.now }
        ensures reply { IfOk result (λ r. reply_of (state self.old) ask.now ≡ Some r) }
        ensures logged { OnOk result (state self.new ≡ after_answer ask.now (state self.old)) }
        ensures err { OnErr result (state self.new ≡ state self.old) }
        ensures stopped { (state self.old).is_stopped ≡ true → IsErr result };
}
