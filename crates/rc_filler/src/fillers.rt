//! What fills a snapshot of a cache chain.
ghost use Rattle.std.specs.Prelude.{◌≡◌, ◌≢◌, ◌*◌, ◌/◌, ◌≤◌, List as Sequence};
ghost use Rattle.rc_cell.specs.Winner.{empty_row};
ghost use Rattle.rc_position.specs.Position.{IsBefore};
ghost use Rattle.rc_rowcode.specs.Spelling.{KeyFits};
ghost use Rattle.rc_mutation.specs.declared.mutations.Mutation.{Mutation};
ghost use Rattle.rc_evict.specs.Crowding.{LosesWhereCrowded};
ghost use Rattle.rc_filler.specs.Stands.{HasCacheSnapshot, StandsForWrites};
ghost use Rattle.rc_filler.specs.Fills.{OfGap, OfRow, SayPortion};
ghost use Rattle.rc_filler.specs.calls.Coming.{CameOf};

use crate::laws::what_came_of_a_fill;
use crate::rooms::{counts_in_range, shrunk_in_range};
use crate::taking::{take_gap, take_row, take_statics};
use rc_cell::{Row, Tomb};
use rc_chain::{Chains, Snap};
use rc_position::{Key, Pos};
use rc_stream::{Fill, Filler};

/// What fills a snapshot of a cache chain with what lies below it. It names the snapshot by its numbers, and its calls fill the chain's newest version where the snapshot pins that and the chain is not under update. Room is made first, by moves and evictions; where there is none, and where a position has a key beyond the limits (4 components, texts of 64 bytes), the fill is skipped and counted.
#[derive(Clone, Copy, Debug)]
pub struct CacheFiller {
    /// The number of the snapshot's chain.
    pub chain: u64,
    /// The number of the snapshot in its chain.
    pub pin: u64,
    /// The phase of the version that it pins.
    pub phase: u64,
}

impl CacheFiller {
    /// The filler of this snapshot.
    pub fn of(snap: &Snap) -> CacheFiller
        ensures chain { result.chain ≡ snap.now.chain }
        ensures pin { result.pin ≡ snap.now.pin }
        ensures phase { result.phase ≡ snap.now.phase }
    {
        CacheFiller {
            chain: snap.chain,
            pin: snap.pin,
            phase: snap.phase,
        }
    }

    // The snapshot that it names.
    fn snap(&self) -> Snap
        ensures chain { result.chain ≡ self.now.chain }
        ensures pin { result.pin ≡ self.now.pin }
    {
        Snap {
            chain: self.chain,
            pin: self.pin,
            phase: self.phase,
        }
    }

    /// Takes in a gap, as `gap` of `Filler` does. Where the keys of both ends are within the limits it is skipped for want of room alone.
    pub fn take_gap<const S: usize>(
        &self,
        home: &mut Chains<S>,
        from: &Pos,
        to: &Pos,
        tomb: Option<Tomb>,
    ) -> Fill
        requires snapshot { HasCacheSnapshot home.old self.now.chain self.now.pin }
        requires roomy { 8952 ≤ 7 * S / 8 }
        requires order { IsBefore from.now to.now }
        ensures came { CameOf S result (OfGap from.now to.now tomb) self.now.chain self.now.pin home.old home.new }
        ensures loses { KeyFits from.now.prefix → KeyFits to.now.prefix → LosesWhereCrowded S 0 home.old home.new }
    {
        what_came_of_a_fill();
        counts_in_range(home);
        shrunk_in_range(home);
        let snap = self.snap();
        let fill = take_gap(home, &snap, from, to, tomb);
        let Snap {
            chain: _,
            pin: _,
            phase: _,
        } = snap;
        fill
    }

    /// Takes in a row, as `row` of `Filler` does. Where something is written in it it is skipped for want of room alone.
    pub fn take_row<const S: usize>(
        &self,
        home: &mut Chains<S>,
        key: &Key,
        row: &Row,
        tomb: Option<Tomb>,
    ) -> Fill
        requires roomy { 8952 ≤ 7 * S / 8 }
        requires source { (writes : Sequence Mutation) × StandsForWrites S home.old self.now.chain self.now.pin writes × SayPortion writes (OfRow key.now row.now tomb) }
        ensures came { CameOf S result (OfRow key.now row.now tomb) self.now.chain self.now.pin home.old home.new }
        ensures loses { row.now ≢ empty_row → LosesWhereCrowded S 0 home.old home.new }
    {
        what_came_of_a_fill();
        counts_in_range(home);
        shrunk_in_range(home);
        let snap = self.snap();
        let fill = take_row(home, &snap, key, row, tomb);
        let Snap {
            chain: _,
            pin: _,
            phase: _,
        } = snap;
        fill
    }
}

impl<const S: usize> Filler<Chains<S>> for CacheFiller {
    ghost use Rattle.std.specs.Prelude.{⊤};
    ghost use Rattle.rc_populate.specs.Filling.{MayFill};
    ghost use Rattle.rc_filler.specs.Stands.{StandsForWrites};
    ghost use Rattle.rc_filler.specs.Fillers.{FillerKnows, FillerKnowsStatics, IsFillerReady, losses};
    ghost use Rattle.rc_filler.specs.Fills.{IsCacheFill};

    ghost ready = { λ f m. IsFillerReady S f m };

    ghost fits = { λ _ _. ⊤ };

    ghost may = { λ f m. MayFill m f.chain f.pin };

    ghost lost = { λ m. losses m };

    ghost stands = { λ f m writes. StandsForWrites S m f.chain f.pin writes };

    ghost knows = { λ f m. FillerKnows m f };

    ghost knows_statics = { λ f m. FillerKnowsStatics m f };

    ghost fills = { λ f m g n. IsCacheFill S f m g n };

    fn gap(&mut self, home: &mut Chains<S>, from: &Pos, to: &Pos, tomb: Option<Tomb>) -> Fill {
        what_came_of_a_fill();
        counts_in_range(home);
        home.known();
        self.take_gap(home, from, to, tomb)
    }

    fn row(&mut self, home: &mut Chains<S>, key: &Key, row: &Row, tomb: Option<Tomb>) -> Fill {
        what_came_of_a_fill();
        counts_in_range(home);
        home.known();
        self.take_row(home, key, row, tomb)
    }

    fn statics(&mut self, home: &mut Chains<S>, row: &Row) -> Fill {
        what_came_of_a_fill();
        counts_in_range(home);
        home.known();
        let snap = self.snap();
        let fill = take_statics(home, &snap, row);
        let Snap {
            chain: _,
            pin: _,
            phase: _,
        } = snap;
        fill
    }
}
