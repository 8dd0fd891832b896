//! What lies below the row cache of one partition.
ghost use Rattle.std.specs.Prelude.{◌≡◌, ⊤, None, is_some};
ghost use Rattle.std.specs.Option.{option_or};
ghost use Rattle.rc_cached.specs.Below.{readings_after};

use crate::readings::Readings;
use rc_mutation::{Frag, Head};
use rc_position::Pos;
use rc_stream::{Frags, ListFrags, StreamErr};
use std::alloc::Global;

/// What lies below the row cache of one partition: what was read of its tables, once it was handed in. A call over readings takes what they have, if nothing was handed in before; where they have nothing either it is refused, as what it needs is not in memory, and they say that it was missed. The home is never touched.
#[derive(Drop)]
pub struct Underlying {
    /// What was handed in and is left; none until a call took it from the readings.
    pub list: Option<ListFrags>,
}

impl Underlying {
    // Takes out what was handed in before, or else what the readings have; where they have nothing either, they say that it was missed.
    fn take_out(&mut self, store: &mut Readings) -> Option<ListFrags>
        ensures taken { result ≡ option_or self.old.list store.old.list }
        ensures empty { self.new.list ≡ None }
        ensures readings { store.new ≡ readings_after self.old.list store.old.list store.old }
    {
        if let Some(list) = self.list.take() {
            return Some(list);
        }
        let brought = store.list.take();
        if brought.is_none() {
            store.missed = true;
        }
        brought
    }
}

impl<H> Frags<H, Readings> for Underlying {
    ghost use Rattle.std.specs.Prelude.{⊤};
    ghost use Rattle.std.specs.Option.{option_or};
    ghost use Rattle.rc_cached.specs.Below.{DidBelow, LiesBelow, MovesBelow};

    ghost ready = { λ _ _ _. ⊤ };

    ghost seen = { λ u _ w s. LiesBelow (option_or u.list w.list) s };

    ghost ahead = { λ _ _. ⊤ };

    ghost moves = { λ h w g v. MovesBelow h w g v };

    ghost did = { λ u h w _ ok t g v. DidBelow ok u h w t g v };

    ghost fresh = { λ _. ⊥ };

    ghost might = { λ _ _. ⊥ };

    ghost damage = { λ _ _ _. ⊥ };

    fn head(
        &mut self,
        alloc: Global,
        _home: &mut H,
        store: &mut Readings,
    ) -> Result<Head, StreamErr> {
        let Some(list) = self.take_out(store) else {
            return Err(StreamErr::NoMemory);
        };
        let head = list.copy_head(alloc);
        self.list = Some(list);
        match head {
            Ok(head) => Ok(head),
            Err(_) => Err(StreamErr::NoMemory),
        }
    }

    fn seek(
        &mut self,
        alloc: Global,
        _home: &mut H,
        store: &mut Readings,
        to: &Pos,
    ) -> Result<(), StreamErr> {
        let Some(mut list) = self.take_out(store) else {
            return Err(StreamErr::NoMemory);
        };
        let went = list.go_on(alloc, to);
        self.list = Some(list);
        match went {
            Ok(()) => Ok(()),
            Err(_) => Err(StreamErr::NoMemory),
        }
    }

    fn next(
        &mut self,
        alloc: Global,
        _home: &mut H,
        store: &mut Readings,
        upto: &Pos,
    ) -> Result<Option<Frag>, StreamErr> {
        let Some(mut list) = self.take_out(store) else {
            return Err(StreamErr::NoMemory);
        };
        let taken = list.take_first(alloc, upto);
        self.list = Some(list);
        match taken {
            Ok(got) => Ok(got),
            Err(_) => Err(StreamErr::NoMemory),
        }
    }
}
