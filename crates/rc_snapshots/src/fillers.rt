//! A filler that fills nothing.
ghost use Rattle.std.specs.Prelude.{◌≡◌};

use rc_cell::{Row, Tomb};
use rc_cursor::{Chains, Snap};
use rc_position::{Key, Pos};
use rc_stream::{Fill, Filler};

/// What fills a snapshot of which all is known: nothing. It names the snapshot, and its calls do nothing.
#[derive(Clone, Copy, Debug)]
pub struct NoFiller {
    /// The number of the snapshot's chain.
    pub chain: u64,
    /// The number of the snapshot in its chain.
    pub pin: u64,
}

impl NoFiller {
    /// The filler of this snapshot.
    pub fn of(snap: &Snap) -> NoFiller
        ensures chain { result.chain ≡ snap.now.chain }
        ensures pin { result.pin ≡ snap.now.pin }
    {
        NoFiller {
            chain: snap.chain,
            pin: snap.pin,
        }
    }
}

impl<const S: usize> Filler<Chains<S>> for NoFiller {
    ghost use Rattle.std.specs.Prelude.{◌≡◌, ⊤};
    ghost use Rattle.rc_snapshots.specs.Fillers.{IsReadableNamed, KnowsNamed, KnowsStaticsNamed, StandsNamed};

    ghost ready = { λ f m. IsReadableNamed m f };

    ghost fits = { λ _ _. ⊤ };

    ghost may = { λ _ _. ⊥ };

    ghost lost = { λ _. 0 };

    // its partition tombstone, and what it knows, is what the writes say
    ghost stands = { λ f m. StandsNamed m f };

    ghost knows = { λ f m. KnowsNamed m f };

    ghost knows_statics = { λ f m. KnowsStaticsNamed m f };

    ghost fills = { λ f m g n. (g ≡ f) × (n ≡ m) };

    fn gap(&mut self, _home: &mut Chains<S>, _from: &Pos, _to: &Pos, _tomb: Option<Tomb>) -> Fill {
        Fill::NotNewest
    }

    fn row(&mut self, _home: &mut Chains<S>, _key: &Key, _row: &Row, _tomb: Option<Tomb>) -> Fill {
        Fill::NotNewest
    }

    fn statics(&mut self, _home: &mut Chains<S>, _row: &Row) -> Fill {
        Fill::NotNewest
    }
}
