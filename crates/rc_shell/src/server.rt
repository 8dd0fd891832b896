//! What answers the lines.

ghost use Rattle.std.specs.Prelude.{◌≡◌, ℕ, List, ◌++◌, OnOk};
ghost use Rattle.rc_shell.specs.calls.Feed.{Answered, kept_front};
ghost use Rattle.rc_shell.specs.Step.{Moment, StoreView, LineStep, EndsRun, LeavesStore};

use crate::status::Ending;
use rc_outside::Store;
use std::alloc::{AllocError, Global};

/// Something that answers lines over a store, one after another, and is closed at its end.
pub(crate) trait Server {
    /// Over a store of which this is seen the server stands for a moment of a run.
    ghost stands: { Self → StoreView → Moment → Type 0 };

    /// The server may be closed.
    ghost closes: { Self → Type 0 };

    /// Answers one line, without its newline: the text of its reply goes to the end of `text`; where the line ends the run, it is the run's
    /// last line. Want of memory leaves the store as before the line, or as a step by the line leaves it. Whatever is answered, it may be closed then.
    fn answer<W: Store>(
        &mut self,
        alloc: Global,
        store: &mut W,
        line: &[u8],
        text: &mut Vec<u8>,
    ) -> Result<Option<Ending>, AllocError>
        requires { (now : Moment) × stands self.old (W.files store.old, W.faults store.old, W.asks store.old) now }
        ensures answered { (old : Moment) → stands self.old (W.files store.old, W.faults store.old, W.asks store.old) old →
            Answered LineStep EndsRun LeavesStore old line.now (stands self.new (W.files store.new, W.faults store.new, W.asks store.new)) (W.files store.new, W.faults store.new, W.asks store.new) text.old.items text.new.items result }
        ensures closes { closes self.new };

    /// Lets it go, with what it holds.
    fn close(self)
        requires { closes self };

    /// What stands may be closed.
    ghost stood: { (server : Self) (store : StoreView) (now : Moment) → stands server store now → closes server };

    /// Its moment has the store's files.
    ghost leaves: { (server : Self) (store : StoreView) (now : Moment) → stands server store now → LeavesStore now store };
}
