//! A snapshot that is read by its parts: what of it is known.

ghost use Rattle.std.specs.Prelude.{◌≡◌, IfOk, OnErr, OnOk};

use rc_core::Part;
use rc_mutation::HeadAt;
use rc_position::Pos;
use std::alloc::{AllocError, Global};

/// A snapshot over a home `H`, read from a place on by its parts. A contract sees the place, what is known at each position and of the
/// head, and what its calls did. Each call needs that the snapshot is ready over the home handed in, keeps it, and leaves what is known
/// as it was.
pub trait Known<H> {
    ghost use Rattle.std.specs.Prelude.{◌≡◌, Bool};
    ghost use Rattle.rc_position.specs.declared.positions.Pos.{Pos};
    ghost use Rattle.rc_mutation.specs.declared.fragments.HeadAt.{HeadAt};
    ghost use Rattle.rc_stream.specs.Did.{Call, Call.OfHead, Call.OfNext, Call.OfSeek};
    ghost use Rattle.rc_stream.specs.Places.{Reaches};
    ghost use Rattle.rc_stream.specs.Snapshot.{IsPartFrom, SameKnown, There, place_behind};
    ghost use Rattle.std.specs.Result.{is_ok};

    // its calls may be made over this home
    ghost ready: { Self → H → Type 0 };

    // where the next part begins
    ghost place: { Self → Pos };

    // over this home the position is known, and this is there
    ghost knows: { Self → H → Pos → There → Type 0 };

    // over this home it has this head, of which the static row may be known
    ghost heads: { Self → H → HeadAt → Type 0 };

    // what a call, answered or refused, does to a snapshot and its home
    ghost did: { Self → H → Call → Bool → Self → H → Type 0 };

    /// The head, and whether its static row is known. The only error is want of memory.
    fn head_known(&mut self, alloc: Global, home: &mut H) -> Result<HeadAt, AllocError>
        requires { ready self.old home.old }
        ensures head { IfOk result (heads self.old home.old) }
        ensures place { place self.new ≡ place self.old }
        ensures knows { SameKnown (knows self.old home.old) (knows self.new home.new) }
        ensures heads { (h : HeadAt) → heads self.old home.old h → heads self.new home.new h }
        ensures did { did self.old home.old OfHead (is_ok result) self.new home.new }
        ensures ready { ready self.new home.new };

    /// The first part from the place on, up to a bound that is not before it. The place is then behind a row, or at the end of a
    /// gap; else it is as before. The only error is want of memory: then the snapshot is as it was.
    fn next_known(&mut self, alloc: Global, home: &mut H, upto: &Pos) -> Result<Part, AllocError>
        requires ready { ready self.old home.old }
        requires ahead { Reaches (place self.old) upto.now }
        ensures part { IfOk result (IsPartFrom (knows self.old home.old) (place self.old) upto.now) }
        ensures place { place self.new ≡ place_behind result (place self.old) }
        ensures knows { SameKnown (knows self.old home.old) (knows self.new home.new) }
        ensures heads { (h : HeadAt) → heads self.old home.old h → heads self.new home.new h }
        ensures did { did self.old home.old (OfNext upto.now) (is_ok result) self.new home.new }
        ensures ready { ready self.new home.new };

    /// Goes on to a place that is not before its own; the home is as it was. The only error is want of memory: then the snapshot is
    /// as it was.
    fn pass(&mut self, alloc: Global, home: &mut H, to: &Pos) -> Result<(), AllocError>
        requires ready { ready self.old home.old }
        requires ahead { Reaches (place self.old) to.now }
        ensures ok { OnOk result (place self.new ≡ to.now) }
        ensures err { OnErr result (place self.new ≡ place self.old) }
        ensures knows { SameKnown (knows self.old home.old) (knows self.new home.new) }
        ensures heads { (h : HeadAt) → heads self.old home.old h → heads self.new home.new h }
        ensures did { did self.old home.old (OfSeek to.now) (is_ok result) self.new home.new }
        ensures home { home.new ≡ home.old }
        ensures ready { ready self.new home.new };
}
