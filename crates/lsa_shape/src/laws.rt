//! The laws of trees along links, each the contract of a function that does nothing.
ghost use Rattle.std.specs.Prelude.{◌≡◌, ◌≢◌, ◌⊎◌, ℕ, ◌+◌, ◌*◌, ◌^◌, ◌<◌, ◌≤◌, List, ◌++◌, length, map, Option, Contains, AllPairs};
ghost use Rattle.std.specs.Option.{option_map};
ghost use Rattle.lsa_path.specs.Ref.{Ref};
ghost use Rattle.lsa_path.specs.End.{End};
ghost use Rattle.lsa_path.specs.End.TheVariants.{Obj};
ghost use Rattle.lsa_path.specs.Paired.{WellPaired, IsExchanged};
ghost use Rattle.lsa_shape.specs.declared.flank.Flank.{Flank};
ghost use Rattle.lsa_shape.specs.Flanks.{near_link, far_link};
ghost use Rattle.lsa_shape.specs.Shapes.{TreeShape, Node, inorder, IsIn, HangsAt, IsOff, IsClearOf, StaysBeyond, node_on, shape_by};
ghost use Rattle.lsa_shape.specs.Ways.{Fork, plug, hole, way_before, way_behind};
ghost use Rattle.lsa_shape.specs.Levels.{IsLevel, IsLevelAround};
ghost use Rattle.lsa_shape.specs.calls.Levels.{shape_size};
ghost use Rattle.lsa_shape.specs.Readings.{LeadsUp, way_objects};

/// The links determine which tree hangs at an end.
pub fn links_determine_a_tree()
    ensures { (named : End → Option End) (a : End) (s t : TreeShape) → HangsAt named a s → HangsAt named a t → s ≡ t }
{}

/// A tree that hangs at an end which is none of its own links has each object once; and where two trees hang at two ends, neither of which is a link of the
/// other, they share no object.
pub fn a_tree_has_each_object_once()
    ensures once { (named : End → Option End) (a : End) (s : TreeShape) → WellPaired named → HangsAt named a s → IsClearOf a s → AllPairs ◌≢◌ (inorder s) }
    ensures apart { (named : End → Option End) (a b : End) (s t : TreeShape) → WellPaired named → a ≢ b → HangsAt named a s → HangsAt named b t → IsClearOf a t → IsClearOf b s → (z : Ref) → IsIn z s → IsIn z t → ⊥ }
{}

/// A rotation: the end at which a tree hangs changes places with the near link of its root y, and then that with the far link of the object x there. The part
/// between goes over to y, the order stays, and so does each end beyond the tree.
pub fn two_exchanges_turn_a_tree()
    ensures hangs { (old mid new : End → Option End) (flank : Flank) (a : End) (x y : Ref) (l m t : TreeShape) → WellPaired old → IsExchanged old mid a (Obj y (near_link flank)) → IsExchanged mid new (Obj y (near_link flank)) (Obj x (far_link flank)) →
        HangsAt old a (node_on flank (node_on flank l x m) y t) → IsClearOf a (node_on flank (node_on flank l x m) y t) → HangsAt new a (node_on flank l x (node_on flank m y t)) }
    ensures stays { (old mid new : End → Option End) (flank : Flank) (a : End) (x y : Ref) (l m t : TreeShape) → WellPaired old → IsExchanged old mid a (Obj y (near_link flank)) → IsExchanged mid new (Obj y (near_link flank)) (Obj x (far_link flank)) →
        HangsAt old a (node_on flank (node_on flank l x m) y t) → IsClearOf a (node_on flank (node_on flank l x m) y t) → StaysBeyond old new a (λ z. IsIn z (node_on flank (node_on flank l x m) y t)) }
    ensures order { (flank : Flank) (x y : Ref) (l m t : TreeShape) → inorder (node_on flank l x (node_on flank m y t)) ≡ inorder (node_on flank (node_on flank l x m) y t) }
{}

/// A tree that is changed at a place, by what hangs there and objects that were not in it, is the tree with what hangs there now.
pub fn a_change_at_a_place_leaves_the_rest()
    ensures changed { (old new : End → Option End) (start : End) (way : List Fork) (s t : TreeShape) (r : Ref) → WellPaired old → HangsAt old start (plug way s) → IsClearOf start (plug way s) → HangsAt new (hole start way) t →
        StaysBeyond old new (hole start way) (λ z. (z ≡ r) ⊎ IsIn z s) → IsOff start r → (IsIn r (plug way s) → ⊥) → HangsAt new start (plug way t) }
    ensures order { (way : List Fork) (s : TreeShape) → inorder (plug way s) ≡ way_before way ++ (inorder s ++ way_behind way) }
{}

/// A tree whose links are renamed as its objects are hangs at the new name of its end.
pub fn a_renamed_tree_has_the_new_names()
    ensures hangs { (old new : End → Option End) (ends : End → End) (refs : Ref → Ref) (a : End) (s : TreeShape) → ((z : Ref) → IsIn z s → (field : ℕ) → 2 ≤ field → field ≤ 4 → ends (Obj z field) ≡ Obj (refs z) field) →
        new (ends a) ≡ option_map ends (old a) → ((z : Ref) → IsIn z s → (field : ℕ) → 3 ≤ field → field ≤ 4 → new (ends (Obj z field)) ≡ option_map ends (old (Obj z field))) → HangsAt old a s → HangsAt new (ends a) (shape_by refs s) }
    ensures order { (refs : Ref → Ref) (s : TreeShape) → inorder (shape_by refs s) ≡ map refs (inorder s) }
{}

/// A balanced tree of less than 2 ^ d - 1 objects is less than 2 d deep, and no way in it is longer than that; the objects of a way lead up from the object at its end.
pub fn a_balanced_tree_is_shallow()
    ensures shallow { (lean : Ref → ℕ) (d : ℕ) (s : TreeShape) (depth : ℕ) → IsLevel lean s depth → length (inorder s) + 1 < 2 ^ d → depth < 2 * d }
    ensures way { (lean : Ref → ℕ) (way : List Fork) (here depth : ℕ) → IsLevelAround lean way here depth → length (way_objects way) + here ≤ depth }
    ensures leads { (named : End → Option End) (start : End) (way : List Fork) (l t : TreeShape) (r : Ref) → WellPaired named → HangsAt named start (plug way (Node l r t)) → LeadsUp named start r (way_objects way) }
{}
