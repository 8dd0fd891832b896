//! The laws of cells, each the contract of a function that does nothing.
ghost use Rattle.std.specs.Prelude.{◌≡◌, ◌≢◌, ℕ, ◌+◌, ◌*◌, ◌^◌, ◌%◌, ◌<◌, ◌≤◌, ◌⊎◌, List, [], ◌∷◌, ◌++◌, length, sum_by, Option, Some, None, IsSome, IsSomeAnd, All};
ghost use Rattle.std.specs.Option.{option_map};
ghost use Rattle.lsa_kinds.specs.declared.kind.Kind.{Kind};
ghost use Rattle.lsa_kinds.specs.Kinds.{links_of};
ghost use Rattle.lsa_segment.specs.Bytes.{overwritten};
ghost use Rattle.lsa_yard.specs.Cells.{Cell, size_of, extent, cell_at, body_of, link_in, fresh, with_link, with_bytes, gap_of, IsReplaced};
ghost use Rattle.lsa_yard.specs.Spelled.{spells, cells_in, IsProper};

/// What cells spell reads back.
pub fn cells_read_back()
    ensures { (cells : List Cell) → All IsProper cells → cells_in (spells cells) ≡ cells }
{}

/// Where one cell is another one now, each other one begins where it did and is as it was, and any sum over the cells changes by that cell alone.
pub fn one_cell_is_replaced()
    ensures here { (old new : List Cell) (offset : ℕ) (was is : Cell) → IsReplaced old new offset was is → (cell_at old offset ≡ Some was) × (cell_at new offset ≡ Some is) }
    ensures others { (old new : List Cell) (offset : ℕ) (was is : Cell) → IsReplaced old new offset was is → (other : ℕ) → other ≢ offset → cell_at new other ≡ cell_at old other }
    ensures long { (old new : List Cell) (offset : ℕ) (was is : Cell) → IsReplaced old new offset was is → extent new ≡ extent old }
    ensures sums { (old new : List Cell) (offset : ℕ) (was is : Cell) → IsReplaced old new offset was is → (g : Cell → ℕ) → sum_by g new + g was ≡ sum_by g old + g is }
{}

/// A cell behind the others begins where they end, and the others begin where they did.
pub fn one_more_cell_stands_behind()
    ensures here { (cells : List Cell) (c : Cell) → cell_at (cells ++ c ∷ []) (extent cells) ≡ Some c }
    ensures others { (cells : List Cell) (c : Cell) (offset : ℕ) → offset ≢ extent cells → cell_at (cells ++ c ∷ []) offset ≡ cell_at cells offset }
{}

/// Cells lie apart, each at a multiple of 8.
pub fn cells_are_apart()
    ensures apart { (cells : List Cell) (offset other : ℕ) (c d : Cell) → cell_at cells offset ≡ Some c → cell_at cells other ≡ Some d → offset < other → offset + size_of c ≤ other }
    ensures even { (cells : List Cell) (offset : ℕ) (c : Cell) → cell_at cells offset ≡ Some c → offset % 8 ≡ 0 }
{}

/// A walk by sizes meets every cell: behind each one the next one begins, or they end.
pub fn a_walk_meets_each_cell()
    ensures first { (c : Cell) (cells : List Cell) → cell_at (c ∷ cells) 0 ≡ Some c }
    ensures within { (cells : List Cell) (offset : ℕ) (c : Cell) → cell_at cells offset ≡ Some c → offset + size_of c ≤ extent cells }
    ensures next { (cells : List Cell) (offset : ℕ) (c : Cell) → cell_at cells offset ≡ Some c → (offset + size_of c ≡ extent cells) ⊎ IsSome (cell_at cells (offset + size_of c)) }
{}

/// A fresh object has its kind and bytes, and none of its links is set.
pub fn a_fresh_object_has_its_bytes()
    ensures body { (kind : Kind) (bytes : List ℕ) → body_of (fresh kind bytes) ≡ Some (kind, bytes) }
    ensures unset { (kind : Kind) (bytes : List ℕ) (field : ℕ) → field < links_of kind → link_in field (fresh kind bytes) ≡ 0 }
{}

/// A link that is set reads back; the object's other links and its own bytes are as they were.
pub fn a_set_link_reads_back()
    ensures here { (c : Cell) (field value : ℕ) → IsProper c → IsSomeAnd (body_of c) (λ b. field < links_of b.0) → value < 2 ^ 64 → link_in field (with_link field value c) ≡ value }
    ensures others { (c : Cell) (field other value : ℕ) → IsProper c → IsSomeAnd (body_of c) (λ b. field < links_of b.0) → other ≢ field → link_in other (with_link field value c) ≡ link_in other c }
    ensures body { (c : Cell) (field value : ℕ) → IsProper c → IsSomeAnd (body_of c) (λ b. field < links_of b.0) → body_of (with_link field value c) ≡ body_of c }
{}

/// Bytes that are written over an object's own read back, and its links are as they were.
pub fn written_bytes_read_back()
    ensures body { (c : Cell) (from : ℕ) (bytes : List ℕ) → IsProper c → IsSomeAnd (body_of c) (λ b. from + length bytes ≤ length b.1) → body_of (with_bytes from bytes c) ≡ option_map (λ b. (b.0, overwritten b.1 from bytes)) (body_of c) }
    ensures links { (c : Cell) (from field : ℕ) (bytes : List ℕ) → IsProper c → IsSomeAnd (body_of c) (λ b. (from + length bytes ≤ length b.1) × (field < links_of b.0)) → link_in field (with_bytes from bytes c) ≡ link_in field c }
{}

/// A gap has no body, and the size of the object that left it.
pub fn a_gap_keeps_the_size()
    ensures body { (c : Cell) → body_of (gap_of c) ≡ None }
    ensures size { (c : Cell) → size_of (gap_of c) ≡ size_of c }
{}
