//! The laws that show what the words for rows mean, over rows that hold values of any type.
ghost use Rattle.std.specs.Prelude.{◌≡◌, ◌+◌, ◌<◌, ◌≤◌, ℕ, Bool, true, false, List, [], ◌∷◌, ◌++◌, length, take, drop, filter, slice_get, slice_index, if◌then◌else◌};
ghost use Rattle.std.specs.List.{list_any};
ghost use Rattle.ac_model.specs.Outline.{spots, is_outline, HasParent};
ghost use Rattle.ac_base.specs.Rows.{Row, names, values};
ghost use Rattle.ac_base.specs.Order.{are_level, IsWeakOrder};
ghost use Rattle.ac_model.specs.Rows.{Node, fresh, cut, put, place_of, named, row_by, sorted, is_ascending, HasRowsOf, merged};

/// A cut and a put of the same rows give the list back.
pub fn cut_and_put<V>()
    ensures cut_of_put { (rows : List (Row ℕ V)) (place : ℕ) (more : List (Row ℕ V)) → place ≤ length rows →
        cut (put rows place more) place (length more) ≡ rows }
    ensures put_of_cut { (rows : List (Row ℕ V)) (place count : ℕ) →
        put (cut rows place count) place (take count (drop place rows)) ≡ rows }
{}

/// Fresh rows have the next names in order, over the values.
pub fn fresh_rows<V>()
    ensures names_in_order { (next : ℕ) (vs : List V) (k : ℕ) → k < length vs → slice_index (names (fresh next vs)) k ≡ next + k }
    ensures over_values { (next : ℕ) (vs : List V) → values (fresh next vs) ≡ vs }
{}

/// At the place of a name stands the row that it names, and a row that is found by its key matches it.
pub fn places<V>()
    ensures at_its_place { (rows : List (Row ℕ V)) (name : ℕ) → slice_get rows (place_of rows name) ≡ named rows name }
    ensures found_matches { (matches : V → Bool) (rows : List (Row ℕ V)) (r : Row ℕ V) → row_by matches rows ≡ Some r →
        matches r.value ≡ true }
    ensures none_matches { (matches : V → Bool) (rows : List (Row ℕ V)) → row_by matches rows ≡ None →
        list_any matches (values rows) ≡ false }
{}

/// A sorted list has the same rows, in order, and rows of which neither is less stand as they stood.
pub fn sorted_lists<V>()
    ensures same_rows { (less : V → V → Bool) (rows : List (Row ℕ V)) → HasRowsOf (sorted less rows) rows }
    ensures in_order { (less : V → V → Bool) → IsWeakOrder less → (rows : List (Row ℕ V)) →
        is_ascending less (values (sorted less rows)) ≡ true }
    ensures stable { (less : V → V → Bool) → IsWeakOrder less → (v : V) (rows : List (Row ℕ V)) →
        filter (λ r. are_level less r.value v) (sorted less rows) ≡ filter (λ r. are_level less r.value v) rows }
{}

/// A merged list has the rows of both, each time the head that is less, the first list's where neither is.
pub fn merged_lists<V>()
    ensures none_first { (less : V → V → Bool) (rows : List (Row ℕ V)) → merged less [] rows ≡ rows }
    ensures none_second { (less : V → V → Bool) (rows : List (Row ℕ V)) → merged less rows [] ≡ rows }
    ensures heads { (less : V → V → Bool) (r s : Row ℕ V) (rows others : List (Row ℕ V)) →
        merged less (r ∷ rows) (s ∷ others)
        ≡ (if less s.value r.value then s ∷ merged less (r ∷ rows) others else r ∷ merged less rows (s ∷ others)) }
    ensures rows_of_both { (less : V → V → Bool) (rows others : List (Row ℕ V)) → HasRowsOf (merged less rows others) (rows ++ others) }
{}

/// Every node of an outline but the root has a parent, which stands before it with a depth one less.
pub fn outlines<T>()
    ensures { (rows : List (Row ℕ (Node T))) → is_outline rows ≡ true → (place : ℕ) → 0 < place → place ≤ length rows →
        HasParent (spots rows) place }
{}
