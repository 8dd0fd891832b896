// What a page passed is filled into the row cache.
ghost use Rattle.std.specs.Prelude.{◌≡◌, true, Option, IfSome, OnOk};
ghost use Rattle.rc_position.specs.declared.positions.Pos.{Pos};
ghost use Rattle.rc_chain.specs.declared.chains.Snap.{Snap};
ghost use Rattle.rc_core.specs.Version.{end_position};
ghost use Rattle.rc_cacheread.specs.Spots.{stand};
ghost use Rattle.rc_paging.specs.calls.Keeping.{ArePassedWhole, IsBehindOrEnds, IsStreamAhead, IsStreamPassedTo, IsStreamPassedWhole, AreAhead, KeptCache, KeptLayers};
ghost use Rattle.rc_paging.specs.calls.Layers.{cached_in};
ghost use Rattle.rc_paging.specs.calls.Words.{IsReadyIn};

use crate::layers::Layers;
use crate::optional::Optional;
use rc_cached::laws::{
    a_cached_stream_leaves_what_others_see, a_cached_stream_misses_only_what_is_not_known,
};
use rc_cached::{CachedStream, Readings};
use rc_chain::Chains;
use rc_position::{Key, Pos, Weight};
use rc_stream::{Frags, Merge, StreamErr};
use std::alloc::Global;

// Takes the next of the cached stream up to a position, and lets it go: false where none is left. A refusal is the stream's.
fn pass_one<const S: usize>(
    alloc: Global,
    chains: &mut Chains<S>,
    readings: &mut Readings,
    cached: &mut Optional<CachedStream>,
    upto: &Pos,
) -> Result<bool, StreamErr>
    requires { IsReadyIn S chains.old readings.old cached.old.stream }
    ensures kept { KeptCache S cached.old.stream chains.old readings.old cached.new.stream chains.new readings.new }
    ensures ready { IsReadyIn S chains.new readings.new cached.new.stream }
    ensures still { (x : Pos) (snap : Option Snap) → IfSome cached.old.stream (IsStreamAhead x upto.now snap chains.old) → (chains.new ≡ chains.old) × (readings.new ≡ readings.old) }
    ensures ahead { (x : Pos) (snap : Option Snap) → IfSome cached.old.stream (IsStreamAhead x upto.now snap chains.old) → OnOk result (IfSome cached.new.stream (IsStreamAhead x upto.now snap chains.new)) }
    ensures passed { (x : Pos) → IfSome cached.old.stream (IsStreamPassedWhole x chains.old readings.old) → OnOk result (IfSome cached.new.stream (IsStreamPassedWhole x chains.new readings.new)) }
{
    a_cached_stream_leaves_what_others_see::<S>();
    a_cached_stream_misses_only_what_is_not_known::<S>();
    match cached.next(alloc, chains, readings, upto) {
        Ok(got) => Ok(got.is_some()),
        Err(error) => Err(error),
    }
}

// Passes what the cached stream has up to a position, so that it is filled: where it is refused, the rest is not. A refusal is the stream's.
fn pass_all<const S: usize>(
    alloc: Global,
    chains: &mut Chains<S>,
    readings: &mut Readings,
    cached: &mut Optional<CachedStream>,
    upto: &Pos,
) -> Result<(), StreamErr>
    requires { IsReadyIn S chains.old readings.old cached.old.stream }
    ensures kept { KeptCache S cached.old.stream chains.old readings.old cached.new.stream chains.new readings.new }
    ensures still { (x : Pos) (snap : Option Snap) → IfSome cached.old.stream (IsStreamAhead x upto.now snap chains.old) → (chains.new ≡ chains.old) × (readings.new ≡ readings.old) }
    ensures passed { (x : Pos) → IfSome cached.old.stream (IsStreamPassedWhole x chains.old readings.old) → OnOk result (IfSome cached.new.stream (IsStreamPassedWhole x chains.new readings.new)) }
{
    let mut rounds = u64::MAX;
    while rounds > 0 {
        rounds -= 1;
        match pass_one(alloc, chains, readings, cached, upto) {
            Ok(true) => {}
            Ok(false) => return Ok(()),
            Err(error) => return Err(error),
        }
    }
    Err(StreamErr::NoMemory)
}

// The last of all positions, where each partition ends.
fn end_of_all(alloc: Global) -> Pos
    ensures { result ≡ end_position }
{
    Pos {
        prefix: Key::empty(alloc),
        weight: Weight::After,
    }
}

// That the cached stream, where there is one, stands behind a position, or where the partition ends. The only error is want of memory: so it is told, too, where it stands elsewhere.
fn stands_behind(
    alloc: Global,
    cached: &Optional<CachedStream>,
    upto: &Pos,
) -> Result<(), StreamErr>
    ensures { OnOk result (IfSome cached.now.stream (λ r. IsBehindOrEnds upto.now (stand r.spot))) }
{
    match &cached.stream {
        None => Ok(()),
        Some(stream) => match stream.stand(alloc) {
            Ok(place) => {
                if is_behind_or_ends(alloc, upto, &place) {
                    return Ok(());
                }
                Err(StreamErr::NoMemory)
            }
            Err(_) => Err(StreamErr::NoMemory),
        },
    }
}

// Whether a place is behind a position, or where each partition ends.
fn is_behind_or_ends(alloc: Global, upto: &Pos, place: &Pos) -> bool
    ensures { result ≡ true → IsBehindOrEnds upto.now place.now }
{
    if upto.cmp(place).is_lt() {
        return true;
    }
    end_of_all(alloc).cmp(place).is_le()
}

// The layers, once what the cached stream has up to a position was passed, so that it is filled. A refusal is the stream's: then the rest is not.
pub(crate) fn passed_to<const S: usize>(
    alloc: Global,
    chains: &mut Chains<S>,
    readings: &mut Readings,
    layers: Layers,
    upto: &Pos,
) -> (Layers, Result<(), StreamErr>)
    requires { ⟦<Layers as Frags<Chains<S>, Readings>>⟧.ready layers chains.old readings.old }
    ensures kept { KeptLayers S (layers, chains.old, readings.old) (result.0, chains.new, readings.new) }
    ensures still { (x : Pos) (snap : Option Snap) → AreAhead x upto.now snap (layers, chains.old, readings.old) → readings.new ≡ readings.old }
    ensures passed { (x : Pos) → ArePassedWhole x (layers, chains.old, readings.old) → OnOk result.1 (IfSome (cached_in result.0) (IsStreamPassedTo x upto.now chains.new readings.new)) }
{
    let (both, cached) = layers.into_parts();
    let mut cached = cached;
    let went = match pass_all(alloc, chains, readings, &mut cached, upto) {
        Ok(()) => stands_behind(alloc, &cached, upto),
        Err(error) => Err(error),
    };
    (Merge::new(both, cached), went)
}
