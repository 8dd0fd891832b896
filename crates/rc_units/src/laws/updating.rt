//! What a unit of an update does: it is a unit of the core, and what is lost without room is given up, so the core's laws on chains under update speak of both.

ghost use Rattle.std.specs.declared.cmp.Ordering.TheVariants.{Less};
ghost use Rattle.std.specs.Prelude.{◌≡◌, ◌≢◌, ◌++◌, ◌∷◌, [], ℕ, List, None, Option, map};
ghost use Rattle.rc_cell.specs.declared.writes.Tomb.{Tomb};
ghost use Rattle.rc_position.specs.declared.positions.Pos.{Pos};
ghost use Rattle.rc_position.specs.Position.{Clustered, IsBefore, Place, place_cmp, pos_cmp};
ghost use Rattle.rc_mutation.specs.declared.fragments.Frag.{Frag};
ghost use Rattle.rc_mutation.specs.declared.mutations.Mutation.{Mutation};
ghost use Rattle.rc_mutation.specs.Fragments.{fragments};
ghost use Rattle.rc_mutation.specs.Source.{IsMutation};
ghost use Rattle.rc_core.specs.declared.entries.ChainKind.TheVariants.{Cache};
ghost use Rattle.rc_core.specs.declared.entries.Entry.{Entry};
ghost use Rattle.rc_core.specs.AtPlace.{IsAtPlace, IsSilentFrom};
ghost use Rattle.rc_core.specs.Chain.{IsKnown};
ghost use Rattle.rc_core.specs.Change.{position_of};
ghost use Rattle.rc_core.specs.Continuity.{IsContinuous};
ghost use Rattle.rc_core.specs.Merge.{new_version};
ghost use Rattle.rc_core.specs.Unit.{IsGivenUp, IsStretch, IsUnit};
ghost use Rattle.rc_core.specs.Version.{IsVersion, Spot, Version, state_at, end_position, finding_in};
ghost use Rattle.rc_units.specs.Update.{AreFragmentsOf, IsFragmentOf, Precedes, fragment_state_at, lost_from, unit_place, updated_by, updated_version};

/// The canonical fragments of a mutation say what it says, each from its own place on and before the next one's.
pub fn canonical_fragments_say_what_the_mutation_says()
    ensures { (change : Mutation) → IsMutation change → AreFragmentsOf change None (fragments change) }
{}

/// From its own place on and before the next fragment's a fragment is put in, where nothing was said; every other spot is as it was.
pub fn a_unit_puts_its_fragment_in()
    ensures before { (force : Option Tomb) (f : Frag) (next : Place) (v : Version) (s : Spot) → Precedes f next → IsVersion v →
        place_cmp (Clustered (position_of s)) (unit_place f) ≡ Less → finding_in s (updated_version force f next v).entries ≡ finding_in s v.entries }
    ensures within { (force : Option Tomb) (f : Frag) (next : Place) (v : Version) (s : Spot) → Precedes f next → IsVersion v → IsSilentFrom (unit_place f) v →
        IsBefore (position_of s) end_position → IsStretch (unit_place f) next (Clustered (position_of s)) → state_at s (updated_version force f next v) ≡ fragment_state_at force f s }
    ensures behind { (force : Option Tomb) (f : Frag) (next : Place) (v : Version) (s : Spot) → Precedes f next → IsVersion v →
        place_cmp (Clustered (position_of s)) next ≢ Less → finding_in s (updated_version force f next v).entries ≡ finding_in s v.entries }
    ensures end { (force : Option Tomb) (f : Frag) (next : Place) (v : Version) (s : Spot) → Precedes f next → IsVersion v →
        pos_cmp (position_of s) end_position ≢ Less → finding_in s (updated_version force f next v).entries ≡ finding_in s v.entries }
{}

/// The unit of a fragment of the update's mutation, on a version at the fragment's place, is a unit of the core: it leaves a version, at the next place.
pub fn an_updates_unit_is_a_unit()
    ensures unit { (change : Mutation) (force : Option Tomb) (f : Frag) (next : Place) (v : Version) → IsVersion v → IsAtPlace (unit_place f) v →
        IsFragmentOf change force f next → IsUnit (unit_place f) next change v (updated_version force f next v) }
    ensures at_place { (change : Mutation) (force : Option Tomb) (f : Frag) (next : Place) (v : Version) → IsVersion v → IsAtPlace (unit_place f) v →
        IsFragmentOf change force f next → IsAtPlace next (updated_version force f next v) }
    ensures version { (force : Option Tomb) (f : Frag) (next : Place) (v : Version) → IsVersion v → IsVersion (updated_version force f next v) }
    ensures phase { (force : Option Tomb) (f : Frag) (next : Place) (v : Version) → (updated_version force f next v).phase ≡ v.phase }
{}

/// What is lost without room, from the update's place on, is given up as the core says; a version is left, in its phase, and no entry is made.
pub fn what_is_lost_without_room_is_given_up()
    ensures given_up { (p : Place) (v : Version) → IsVersion v → IsAtPlace p v → IsGivenUp p v (lost_from p v) }
    ensures version { (p : Place) (v : Version) → IsVersion v → IsVersion (lost_from p v) }
    ensures phase { (p : Place) (v : Version) → (lost_from p v).phase ≡ v.phase }
    ensures positions { (p : Place) (v : Version) → map (λ (e : Entry). e.position) (lost_from p v).entries ≡ map (λ (e : Entry). e.position) v.entries }
{}

/// After all units what is known is the source of the writes and of the update's mutation, and what was known is known.
pub fn a_whole_update_joins_its_mutation()
    ensures kept { (writes : List Mutation) (change : Mutation) (older : List Version) (phase : ℕ) → IsMutation change → IsContinuous None writes older →
        IsContinuous None (writes ++ change ∷ []) (older ++ updated_by None (fragments change) (new_version None phase) ∷ []) }
    ensures known { (change : Mutation) (older : List Version) (phase : ℕ) (x : Pos) → IsMutation change → IsKnown Cache older x →
        IsKnown Cache (older ++ updated_by None (fragments change) (new_version None phase) ∷ []) x }
{}
