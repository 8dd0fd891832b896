//! Making room by compaction.
ghost use Rattle.std.specs.Prelude.{◌≡◌, ℕ, ◌+◌, ◌-◌, ◌*◌, ◌/◌, ◌<◌, ◌≤◌, true, false, length, IfSome, is_some, List};
ghost use Rattle.lsa_region.specs.Ref.{Ref as Name};
ghost use Rattle.lsa_region.specs.Stock.{sparse_of};
ghost use Rattle.lsa_region.specs.Region.{IsWell, Renamed};
ghost use Rattle.lsa_pool.specs.Room.{free_count, live_sum, spare_of};
ghost use Rattle.lsa_move.specs.Room.{Tight, closed_count, IsCompacted, Compactions};

use lsa_region::Region;

/// Whether room was made.
#[derive(Clone, Copy, Debug, PartialEq, Eq)]
pub enum Ensured {
    /// There is room.
    Ready,
    /// There is not, and no closed segment is sparse.
    Full,
}

/// Empties the closed segment with least live bytes: its objects lie elsewhere, under new names, and what is spare rises by an
/// eighth of a segment at least. False exactly where no closed segment is sparse; then nothing is changed. Whatever it answers, the region is
/// the old one under new names.
pub fn compact_one<const S: usize>(region: &mut Region<S>) -> bool
    ensures tells { result ≡ is_some (sparse_of S region.old.usages) }
    ensures tight { result ≡ false → Tight S region.old.usages }
    ensures loose { result ≡ true → Tight S region.old.usages → ⊥ }
    ensures same { result ≡ false → region.new ≡ region.old }
    ensures compacted { IfSome (sparse_of S region.old.usages) (IsCompacted S region.old region.new) }
    ensures renamed { (names : List (Name × Name)) × Renamed region.old region.new names }
    ensures well { IsWell region.new }
{
    region.known();
    match region.sparse() {
        Some(n) => {
            region.evacuate(n);
            true
        }
        None => false,
    }
}

/// Empties segments, the sparsest first, until `need` bytes are spare, or none is sparse. `need` is at most seven eighths of a
/// segment. Ready exactly where there is room at the end; it does nothing where there is room at once.
pub fn ensure<const S: usize>(region: &mut Region<S>, need: usize) -> Ensured
    requires few { need ≤ 7 * S / 8 }
    ensures ready { result ≡ Ensured.Ready → need ≤ spare_of S region.new.usages }
    ensures full { result ≡ Ensured.Full → spare_of S region.new.usages < need }
    ensures tight { result ≡ Ensured.Full → Tight S region.new.usages }
    ensures idle { need ≤ spare_of S region.old.usages → region.new ≡ region.old }
    ensures rounds { (rounds : ℕ) × Compactions S need rounds region.old region.new × (rounds ≤ need / (S / 8) + 1) }
    ensures compacted { region.new.compacted ≤ region.old.compacted + (need / (S / 8) + 1) }
    ensures moved { region.old.moved ≤ region.new.moved }
    ensures renamed { (names : List (Name × Name)) × Renamed region.old region.new names }
    ensures well { IsWell region.new }
{
    region.known();
    let _ = region.moved();
    while region.spare() < need {
        if !compact_one(region) {
            return Ensured::Full;
        }
    }
    Ensured::Ready
}

/// Shows how full a tight region without room for `need` bytes is: one segment is free, all but that and the active one are closed,
/// and so more than three quarters of all but two segments are live. It does nothing.
pub fn a_tight_region_is_nearly_full<const S: usize>(region: &Region<S>, _need: usize)
    requires tight { Tight S region.now.usages }
    requires few { _need ≤ 7 * S / 8 }
    requires full { spare_of S region.now.usages < _need }
    ensures free { free_count region.now.usages ≡ 1 }
    ensures closed { closed_count region.now.usages + 2 ≡ length region.now.usages }
    ensures live { 3 * S / 4 * (length region.now.usages - 2) < live_sum region.now.usages }
{
    region.known();
}
