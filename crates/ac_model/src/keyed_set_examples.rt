//! Examples of the calls that sets with keys add. Elements are numbers, and the key is all digits but the last.
ghost use Rattle.std.specs.Prelude.{◌≡◌, ◌∷◌, [], ℕ, nat_lt, nat_eq, true, false, None, Some};
ghost use Rattle.ac_base.specs.declared.reason.Reason.TheVariants.{CursorTampering, NoElement, DeadCursor};
ghost use Rattle.ac_base.specs.declared.reason.Reason.TheVariants.{KeyAbsent, KeyChanged, Duplicate};
ghost use Rattle.ac_base.specs.Rows.{row};
ghost use Rattle.ac_model.specs.Letters.{no_mark, mark_at};
ghost use Rattle.ac_model.specs.KeyedSets as by_key;
ghost use Rattle.ac_model.specs.Examples.{by_arrived, by_number, list_of, vector_of, guarded, hashed_tens, ordered_tens, tens};
ghost use Rattle.ac_base.specs.declared.guard.GuardKind.TheVariants as kind;

/// A key is read by a cursor, and an element is looked up by its key.
pub fn looked_up()
    ensures key { let c = by_key.key_call tens (vector_of 1 (11 ∷ 25 ∷ [])) (mark_at 1 2) in (c.reason ≡ None) × (c.answer ≡ Some 2) }
    ensures key_of_none { (by_key.key_call tens (vector_of 1 (11 ∷ [])) no_mark).reason ≡ Some NoElement }
    ensures key_of_dead { (by_key.key_call tens (vector_of 1 (11 ∷ [])) (mark_at 1 2)).reason ≡ Some DeadCursor }
    ensures element { let c = by_key.key_element_call tens by_arrived (vector_of 1 (11 ∷ 25 ∷ [])) 2 in
        (c.reason ≡ None) × (c.answer ≡ Some 25) }
    ensures element_of_absent { (by_key.key_element_call tens by_arrived (vector_of 1 (11 ∷ 25 ∷ [])) 25).reason ≡ Some KeyAbsent }
    ensures not_found { by_key.key_find_call tens by_arrived (vector_of 1 (11 ∷ 25 ∷ [])) 25 ≡ no_mark }
    ensures contained { by_key.key_contains_call tens by_arrived (vector_of 1 (11 ∷ 25 ∷ [])) 2 ≡ true }
    ensures not_contained { by_key.key_contains_call tens by_arrived (vector_of 1 (11 ∷ 25 ∷ [])) 11 ≡ false }
{}

/// An element is excluded and deleted by its key, outside loops alone.
pub fn deleted()
    ensures excluded { let c = by_key.key_exclude_call tens by_arrived (vector_of 1 (11 ∷ 25 ∷ 31 ∷ [])) 2 in
        (c.reason ≡ None) × (c.after.rows ≡ row 1 11 ∷ row 3 31 ∷ []) × (c.after.next ≡ 4) }
    ensures excluded_none { let c = by_key.key_exclude_call tens by_arrived (vector_of 1 (11 ∷ [])) 11 in
        (c.reason ≡ None) × (c.after.rows ≡ row 1 11 ∷ []) }
    ensures exclude_in_a_loop { (by_key.key_exclude_call tens by_arrived (guarded 1 0 (vector_of 1 [])) 2).reason ≡ Some CursorTampering }
    ensures deleted { let c = by_key.key_delete_call tens by_arrived (vector_of 1 (11 ∷ 25 ∷ 31 ∷ [])) 2 in
        (c.reason ≡ None) × (c.after.rows ≡ row 1 11 ∷ row 3 31 ∷ []) × (c.after.next ≡ 4) }
    ensures deleted_none { (by_key.key_delete_call tens by_arrived (vector_of 1 (11 ∷ [])) 11).reason ≡ Some KeyAbsent }
    ensures delete_in_a_loop { (by_key.key_delete_call tens by_arrived (guarded 1 0 (vector_of 1 [])) 2).reason ≡ Some CursorTampering }
{}

/// Beside a key: the last element whose key isn't greater, and the first whose key isn't less.
pub fn beside_a_key()
    ensures floor { by_key.key_floor_call tens by_number (list_of 1 (15 ∷ 35 ∷ [])) 2 ≡ mark_at 1 1 }
    ensures floor_there { by_key.key_floor_call tens by_number (list_of 1 (15 ∷ 35 ∷ [])) 3 ≡ mark_at 1 2 }
    ensures none_less { by_key.key_floor_call tens by_number (list_of 1 (15 ∷ 35 ∷ [])) 0 ≡ no_mark }
    ensures ceiling { by_key.key_ceiling_call tens by_number (list_of 1 (15 ∷ 35 ∷ [])) 2 ≡ mark_at 1 2 }
    ensures ceiling_there { by_key.key_ceiling_call tens by_number (list_of 1 (15 ∷ 35 ∷ [])) 1 ≡ mark_at 1 1 }
    ensures none_greater { by_key.key_ceiling_call tens by_number (list_of 1 (15 ∷ 35 ∷ [])) 4 ≡ no_mark }
{}

/// The element that has the key is replaced under its name: in place where hashed, and at its new place where ordered.
pub fn replaced()
    ensures hashed { let c = by_key.key_replace_call tens by_arrived (vector_of 1 (15 ∷ 25 ∷ [])) 1 35 in
        (c.reason ≡ None) × (c.after.rows ≡ row 1 35 ∷ row 2 25 ∷ []) }
    ensures ordered { let c = by_key.key_replace_call tens by_number (list_of 1 (15 ∷ 25 ∷ [])) 1 35 in
        (c.reason ≡ None) × (c.after.rows ≡ row 2 25 ∷ row 1 35 ∷ []) × (c.after.next ≡ 3) }
    ensures same_key { (by_key.key_replace_call tens by_number (list_of 1 (15 ∷ 25 ∷ [])) 1 17).reason ≡ None }
    ensures absent_before_duplicate { (by_key.key_replace_call tens by_arrived (vector_of 1 (15 ∷ [])) 2 17).reason
        ≡ Some KeyAbsent }
    ensures duplicate { (by_key.key_replace_call tens by_number (list_of 1 (15 ∷ 25 ∷ [])) 1 27).reason ≡ Some Duplicate }
    ensures in_a_loop { (by_key.key_replace_call tens by_arrived (guarded 1 0 (vector_of 1 [])) 2 17).reason
        ≡ Some CursorTampering }
{}

/// A copy is taken where no guard is held, and at the end the other elements and the guards of others stay.
pub fn updated()
    ensures started { let c = by_key.start_update_key_call (vector_of 1 (11 ∷ 25 ∷ [])) (mark_at 1 2) in
        (c.reason ≡ None) × (c.answer.copy ≡ Some 25) × (c.after ≡ guarded 1 0 (vector_of 1 (11 ∷ 25 ∷ []))) }
    ensures its_guard { (by_key.start_update_key_call (vector_of 7 (11 ∷ [])) (mark_at 7 1)).answer.guard
        ≡ record { object = 7; kind = kind.Cursors } }
    ensures started_at_none { (by_key.start_update_key_call (vector_of 1 (11 ∷ [])) no_mark).reason ≡ Some NoElement }
    ensures started_at_dead { (by_key.start_update_key_call (vector_of 1 (11 ∷ [])) (mark_at 1 2)).reason ≡ Some DeadCursor }
    ensures started_in_a_loop { (by_key.start_update_key_call (guarded 1 0 (vector_of 1 [])) no_mark).reason ≡ Some CursorTampering }
    ensures kept { let c = by_key.end_update_key_call tens by_arrived (guarded 1 0 (vector_of 1 (11 ∷ 25 ∷ []))) (mark_at 1 2) 29 in
        (c.reason ≡ None) × (c.after ≡ vector_of 1 (11 ∷ 29 ∷ [])) }
    ensures changed { let c = by_key.end_update_key_call tens by_arrived (guarded 1 0 (vector_of 1 (11 ∷ 25 ∷ []))) (mark_at 1 2) 39 in
        (c.reason ≡ Some KeyChanged) × (c.after.rows ≡ row 1 11 ∷ []) × (c.after.cursor_guards ≡ 0) × (c.after.next ≡ 3) }
{}
