//! The laws of what stands in segments, each the contract of a function that does nothing.
ghost use Rattle.std.specs.Prelude.{◌≡◌, ◌≢◌, ℕ, ◌+◌, ◌*◌, ◌/◌, ◌%◌, ◌^◌, ◌<◌, ◌≤◌, ◌⊎◌, List, length, sum_by, Option, Some, None, IsSome, IsSomeAnd, Contains, AllPairs};
ghost use Rattle.std.specs.Option.{option_map_or};
ghost use Rattle.lsa_kinds.specs.declared.kind.Kind.{Kind};
ghost use Rattle.lsa_kinds.specs.Kinds.{links_of};
ghost use Rattle.lsa_yard.specs.Bytes.{overwritten};
ghost use Rattle.lsa_pool.specs.declared.Usage.{Usage};
ghost use Rattle.lsa_pool.specs.declared.State.TheVariants.{Closed};
ghost use Rattle.lsa_pool.specs.Room.{usage_of, live_sum};
ghost use Rattle.lsa_yard.specs.Cells.{Cell, size_of, fresh, with_link, with_bytes, gap_of};
ghost use Rattle.lsa_store.specs.declared.place.Ref.{Ref};
ghost use Rattle.lsa_store.specs.Objects.{cell_in, body_in, word_in, live_in, object_count, IsChangedIn, IsPutIn};
ghost use Rattle.lsa_store.specs.Stock.{stock_of, sparse_of, IsTaken, IsGivenBack};
ghost use Rattle.lsa_store.specs.Stored.{Stored, IsStored};

/// Where one cell is changed, each other one is as it was, and any sum over the cells changes by that cell alone.
pub fn one_cell_is_changed()
    ensures here { (old new : List (List Cell)) (r : Ref) (change : Cell → Cell) (c : Cell) → IsChangedIn old new r change → cell_in old r ≡ Some c → cell_in new r ≡ Some (change c) }
    ensures others { (old new : List (List Cell)) (r : Ref) (change : Cell → Cell) (c : Cell) → IsChangedIn old new r change → cell_in old r ≡ Some c → (q : Ref) → q ≢ r → cell_in new q ≡ cell_in old q }
    ensures sums { (old new : List (List Cell)) (r : Ref) (change : Cell → Cell) (c : Cell) → IsChangedIn old new r change → cell_in old r ≡ Some c → (g : Cell → ℕ) → sum_by (sum_by g) new + g c ≡ sum_by (sum_by g) old + g (change c) }
{}

/// A new object stands where none stood, with its kind and its bytes; no link of it is set, and all else is as it was.
pub fn a_new_object_stands_apart()
    ensures fresh { (old new : List (List Cell)) (r : Ref) (kind : Kind) (bytes : List ℕ) → IsPutIn old new r (fresh kind bytes) → body_in old r ≡ None }
    ensures here { (old new : List (List Cell)) (r : Ref) (kind : Kind) (bytes : List ℕ) → IsPutIn old new r (fresh kind bytes) → body_in new r ≡ Some (kind, bytes) }
    ensures others { (old new : List (List Cell)) (r : Ref) (kind : Kind) (bytes : List ℕ) → IsPutIn old new r (fresh kind bytes) → (q : Ref) → q ≢ r → body_in new q ≡ body_in old q }
    ensures words { (old new : List (List Cell)) (r : Ref) (kind : Kind) (bytes : List ℕ) → IsPutIn old new r (fresh kind bytes) → (q : Ref) (field : ℕ) → word_in new q field ≡ word_in old q field }
    ensures count { (old new : List (List Cell)) (r : Ref) (kind : Kind) (bytes : List ℕ) → IsPutIn old new r (fresh kind bytes) → object_count new ≡ object_count old + 1 }
{}

/// A number that is written into a link reads back; all other links and all bytes are as they were.
pub fn a_written_word_reads_back()
    ensures here { (size : ℕ) (s : Stored) → IsStored size s → (new : List (List Cell)) (r : Ref) (field value : ℕ) → IsSomeAnd (body_in s.cells r) (λ b. field < links_of b.0) → IsChangedIn s.cells new r (with_link field value) → value < 2 ^ 64 → word_in new r field ≡ value }
    ensures others { (size : ℕ) (s : Stored) → IsStored size s → (new : List (List Cell)) (r : Ref) (field value : ℕ) → IsSomeAnd (body_in s.cells r) (λ b. field < links_of b.0) → IsChangedIn s.cells new r (with_link field value) → (q : Ref) (other : ℕ) → (q ≡ r → other ≢ field) → word_in new q other ≡ word_in s.cells q other }
    ensures bodies { (size : ℕ) (s : Stored) → IsStored size s → (new : List (List Cell)) (r : Ref) (field value : ℕ) → IsSomeAnd (body_in s.cells r) (λ b. field < links_of b.0) → IsChangedIn s.cells new r (with_link field value) → (q : Ref) → body_in new q ≡ body_in s.cells q }
{}

/// Bytes that are written over those of an object read back; all links and all other objects are as they were.
pub fn written_bytes_read_back()
    ensures here { (size : ℕ) (s : Stored) → IsStored size s → (new : List (List Cell)) (r : Ref) (from : ℕ) (bytes : List ℕ) → IsSomeAnd (body_in s.cells r) (λ b. from + length bytes ≤ length b.1) → IsChangedIn s.cells new r (with_bytes from bytes) → IsSomeAnd (body_in s.cells r) (λ b. body_in new r ≡ Some (b.0, overwritten b.1 from bytes)) }
    ensures others { (size : ℕ) (s : Stored) → IsStored size s → (new : List (List Cell)) (r : Ref) (from : ℕ) (bytes : List ℕ) → IsSomeAnd (body_in s.cells r) (λ b. from + length bytes ≤ length b.1) → IsChangedIn s.cells new r (with_bytes from bytes) → (q : Ref) → q ≢ r → body_in new q ≡ body_in s.cells q }
    ensures words { (size : ℕ) (s : Stored) → IsStored size s → (new : List (List Cell)) (r : Ref) (from : ℕ) (bytes : List ℕ) → IsSomeAnd (body_in s.cells r) (λ b. from + length bytes ≤ length b.1) → IsChangedIn s.cells new r (with_bytes from bytes) → (q : Ref) (field : ℕ) → word_in new q field ≡ word_in s.cells q field }
{}

/// A freed object is gone, and its links with it; all else is as it was.
pub fn a_freed_object_is_gone()
    ensures here { (old new : List (List Cell)) (r : Ref) → IsSome (body_in old r) → IsChangedIn old new r gap_of → body_in new r ≡ None }
    ensures unset { (old new : List (List Cell)) (r : Ref) → IsSome (body_in old r) → IsChangedIn old new r gap_of → (field : ℕ) → word_in new r field ≡ 0 }
    ensures others { (old new : List (List Cell)) (r : Ref) → IsSome (body_in old r) → IsChangedIn old new r gap_of → (q : Ref) → q ≢ r → cell_in new q ≡ cell_in old q }
    ensures count { (old new : List (List Cell)) (r : Ref) → IsSome (body_in old r) → IsChangedIn old new r gap_of → object_count new + 1 ≡ object_count old }
{}

/// What stands in a segment lies in its used bytes, each at a multiple of 8, and no two overlap.
pub fn what_stands_lies_apart()
    ensures used { (size : ℕ) (s : Stored) → IsStored size s → (r : Ref) (c : Cell) → cell_in s.cells r ≡ Some c → r.offset + size_of c ≤ (usage_of s.usages r.segment).used }
    ensures even { (size : ℕ) (s : Stored) → IsStored size s → (r : Ref) (c : Cell) → cell_in s.cells r ≡ Some c → r.offset % 8 ≡ 0 }
    ensures apart { (size : ℕ) (s : Stored) → IsStored size s → (r q : Ref) (c d : Cell) → cell_in s.cells r ≡ Some c → cell_in s.cells q ≡ Some d → r ≢ q → r.segment ≡ q.segment → (r.offset + size_of c ≤ q.offset) ⊎ (q.offset + size_of d ≤ r.offset) }
{}

/// What is live is what the objects take.
pub fn what_is_live_is_what_objects_take()
    ensures { (size : ℕ) (s : Stored) → IsStored size s → sum_by live_in s.cells ≡ live_sum s.usages }
{}

/// A weight of cells in which a gap weighs nothing, over places each once: no more than all weighs, and as much over the places of all objects.
pub fn objects_are_weighed_once()
    ensures most { (weight : Cell → ℕ) → ((c : Cell) → c.kind ≡ None → weight c ≡ 0) → (refs : List Ref) (cells : List (List Cell)) → AllPairs ◌≢◌ refs → sum_by (λ r. option_map_or weight (cell_in cells r) 0) refs ≤ sum_by (sum_by weight) cells }
    ensures whole { (weight : Cell → ℕ) → ((c : Cell) → c.kind ≡ None → weight c ≡ 0) → (refs : List Ref) (cells : List (List Cell)) → AllPairs ◌≢◌ refs → ((r : Ref) → IsSome (body_in cells r) → Contains refs r) → sum_by (λ r. option_map_or weight (cell_in cells r) 0) refs ≡ sum_by (sum_by weight) cells }
{}

/// Where an object is copied out of a closed segment and then freed there, the stock falls by no more than what is live there falls.
pub fn a_move_takes_no_more_than_it_gives()
    ensures { (size bytes n : ℕ) (old mid new : List Usage) → (usage_of old n).state ≡ Closed → IsTaken size old mid bytes → IsGivenBack size mid new n bytes → stock_of size old + (usage_of new n).live ≤ stock_of size new + (usage_of old n).live }
{}

/// The segment that `sparse` answers is closed, and three quarters of its bytes are live at most.
pub fn a_sparse_segment_is_closed()
    ensures { (size n : ℕ) (us : List Usage) → sparse_of size us ≡ Some n → ((usage_of us n).state ≡ Closed) × ((usage_of us n).live ≤ 3 * size / 4) }
{}
