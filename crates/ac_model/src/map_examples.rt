//! Examples of map calls. Keys and elements are numbers.
ghost use Rattle.std.specs.Prelude.{◌≡◌, ◌∷◌, [], ℕ, nat_lt, nat_eq, pos, true, false, None, Some};
ghost use Rattle.ac_base.specs.declared.reason.Reason.TheVariants.{CursorTampering, ElementTampering, NoElement, ForeignCursor};
ghost use Rattle.ac_base.specs.declared.reason.Reason.TheVariants.{DeadCursor, Empty, KeyPresent, KeyAbsent, CapacityFull, NamesSpent};
ghost use Rattle.ac_base.specs.Rows.{row};
ghost use Rattle.ac_model.specs.Rows.{entry};
ghost use Rattle.ac_model.specs.Objects.{contents};
ghost use Rattle.ac_model.specs.Letters.{no_mark, mark_at};
ghost use Rattle.ac_model.specs.Sequences as sequence;
ghost use Rattle.ac_model.specs.Keyed as keyed;
ghost use Rattle.ac_model.specs.Maps as map;
ghost use Rattle.ac_model.specs.Ordered as ordered;
ghost use Rattle.ac_model.specs.Examples.{by_arrived, by_number, in_tens, hashed_map_of, ordered_map_of, bounded_holding, vector_of, guarded, with_next};
ghost use Rattle.ac_model.specs.Examples.{hashed_entries, ordered_entries, by_tens};

/// A hashed map keeps the order of arrival. A key that is there is refused, included, or found with its position.
pub fn hashed()
    ensures inserted { let one = (map.insert_call by_arrived (hashed_map_of 1 []) 2 1).after in
        (map.insert_call by_arrived one 1 2).after.rows ≡ row 1 (entry 2 1) ∷ row 2 (entry 1 2) ∷ [] }
    ensures present { (map.insert_call by_arrived (hashed_map_of 1 (entry 2 1 ∷ entry 1 2 ∷ [])) 2 3).reason ≡ Some KeyPresent }
    ensures included { let c = map.include_call by_arrived (hashed_map_of 1 (entry 2 1 ∷ entry 1 2 ∷ [])) 2 4 in
        (c.reason ≡ None) × (c.after.rows ≡ row 1 (entry 2 4) ∷ row 2 (entry 1 2) ∷ []) × (c.after.next ≡ 3) }
    ensures found { let c = map.insert_pos_call by_arrived (hashed_map_of 1 (entry 2 4 ∷ entry 1 2 ∷ [])) 1 9 in
        (c.answer.inserted ≡ false)
        × (c.answer.position ≡ mark_at 1 2)
        × ((map.element_call c.after c.answer.position).answer ≡ Some 2) }
    ensures absent { (map.replace_call by_arrived (hashed_map_of 1 (entry 2 4 ∷ [])) 26 1).reason ≡ Some KeyAbsent }
    ensures excluded { let c = map.exclude_call by_arrived (hashed_map_of 1 (entry 2 4 ∷ [])) 26 in
        (c.reason ≡ None) × (contents c.after ≡ entry 2 4 ∷ []) }
    ensures deleted_absent { (map.delete_key_call by_arrived (hashed_map_of 1 (entry 2 4 ∷ [])) 26).reason ≡ Some KeyAbsent }
    ensures deleted { contents (map.delete_key_call by_arrived (hashed_map_of 1 (entry 2 4 ∷ entry 1 2 ∷ [])) 2).after ≡ entry 1 2 ∷ [] }
{}

/// An ordered map has its keys ascending, each under the name that it got when it came.
pub fn ordered()
    ensures inserted { let one = (map.insert_call by_number (ordered_map_of 1 []) 20 1).after in
        (map.insert_call by_number one 10 2).after.rows ≡ row 2 (entry 10 2) ∷ row 1 (entry 20 1) ∷ [] }
    ensures between { let o = ordered_map_of 1 (entry 10 1 ∷ entry 20 2 ∷ []) in
        (map.insert_call by_number o 15 3).after.rows ≡ row 1 (entry 10 1) ∷ row 3 (entry 15 3) ∷ row 2 (entry 20 2) ∷ [] }
    ensures floor { map.floor_call by_number (ordered_map_of 1 (entry 10 1 ∷ entry 20 2 ∷ [])) 19 ≡ mark_at 1 1 }
    ensures ceiling { map.ceiling_call by_number (ordered_map_of 1 (entry 10 1 ∷ entry 20 2 ∷ [])) 11 ≡ mark_at 1 2 }
    ensures none_greater { map.ceiling_call by_number (ordered_map_of 1 (entry 10 1 ∷ entry 20 2 ∷ [])) 21 ≡ no_mark }
    ensures last_key { (map.last_key_call (ordered_map_of 1 (entry 10 1 ∷ entry 20 2 ∷ []))).answer ≡ Some 20 }
    ensures delete_first { contents (ordered.delete_first_call (ordered_map_of 1 (entry 10 1 ∷ entry 20 2 ∷ []))).after ≡ entry 20 2 ∷ [] }
    ensures delete_of_none { let c = ordered.delete_last_call (ordered_map_of 1 []) in (c.reason ≡ None) × (c.after.rows ≡ []) }
{}

/// A shop's stock: an element is changed through a view, and a replacement under it is refused.
pub fn stock()
    ensures updated { let o = hashed_map_of 1 (entry 3 4 ∷ entry 2 12 ∷ entry 1 7 ∷ []) in
        contents (map.write_call o (mark_at 1 1) 5).after ≡ entry 3 5 ∷ entry 2 12 ∷ entry 1 7 ∷ [] }
    ensures no_element { (map.element_call (hashed_map_of 1 (entry 3 4 ∷ [])) no_mark).reason ≡ Some NoElement }
    ensures queried { (map.replace_call by_arrived (guarded 0 1 (hashed_map_of 1 (entry 3 14 ∷ []))) 3 0).reason
        ≡ Some ElementTampering }
    ensures in_a_loop { (map.replace_call by_arrived (guarded 1 0 (hashed_map_of 1 (entry 3 14 ∷ []))) 3 0).reason ≡ None }
    ensures equal { let o = hashed_map_of 1 (entry 3 4 ∷ entry 2 5 ∷ []) in
        map.equal_call by_arrived nat_eq o (hashed_map_of 2 (entry 2 5 ∷ entry 3 4 ∷ []))
        ≡ true }
    ensures unequal { let o = hashed_map_of 1 (entry 3 4 ∷ entry 2 5 ∷ []) in
        map.equal_call by_arrived nat_eq o (hashed_map_of 2 (entry 2 5 ∷ entry 3 6 ∷ []))
        ≡ false }
{}

/// Tampering comes before a present key, a present key before the room, and a name is needed only where something is inserted.
pub fn in_steps()
    ensures tampering { (map.insert_call by_arrived (guarded 1 0 (hashed_map_of 1 (entry 3 4 ∷ []))) 3 0).reason
        ≡ Some CursorTampering }
    ensures present { (map.insert_call by_arrived (with_next 18446744073709551615 (hashed_map_of 1 (entry 3 4 ∷ []))) 3 0).reason
        ≡ Some KeyPresent }
    ensures names { (map.insert_call by_arrived (with_next 18446744073709551615 (hashed_map_of 1 (entry 3 4 ∷ []))) 2 0).reason
        ≡ Some NamesSpent }
    ensures included { (map.include_call by_arrived (with_next 18446744073709551615 (hashed_map_of 1 (entry 3 4 ∷ []))) 3 0).reason
        ≡ None }
    ensures foreign { (keyed.delete_call (hashed_map_of 1 (entry 3 4 ∷ [])) (mark_at 2 1)).reason ≡ Some ForeignCursor }
    ensures memory { (map.include_call by_arrived (hashed_map_of 1 (entry 3 4 ∷ [])) 3 0).memory ≡ false }
{}

/// A key and an element are looked up by a cursor or by a key.
pub fn looked_up()
    ensures key { let c = map.key_call (hashed_map_of 1 (entry 2 4 ∷ entry 1 7 ∷ [])) (mark_at 1 2) in
        (c.reason ≡ None) × (c.answer ≡ Some 1) }
    ensures key_of_none { (map.key_call (hashed_map_of 1 (entry 2 4 ∷ [])) no_mark).reason ≡ Some NoElement }
    ensures key_of_dead { (map.key_call (hashed_map_of 1 (entry 2 4 ∷ [])) (mark_at 1 2)).reason ≡ Some DeadCursor }
    ensures element { (map.element_call (hashed_map_of 1 (entry 2 4 ∷ entry 1 7 ∷ [])) (mark_at 1 2)).answer ≡ Some 7 }
    ensures element_of_key { let c = map.element_key_call by_arrived (hashed_map_of 1 (entry 2 4 ∷ entry 1 7 ∷ [])) 1 in
        (c.reason ≡ None) × (c.answer ≡ Some 7) }
    ensures element_of_absent { (map.element_key_call by_arrived (hashed_map_of 1 (entry 2 4 ∷ [])) 4).reason ≡ Some KeyAbsent }
    ensures found { map.find_call by_arrived (hashed_map_of 1 (entry 2 4 ∷ entry 1 7 ∷ [])) 1 ≡ mark_at 1 2 }
    ensures not_found { map.find_call by_arrived (hashed_map_of 1 (entry 2 4 ∷ [])) 4 ≡ no_mark }
    ensures contained { map.contains_call by_arrived (hashed_map_of 1 (entry 2 4 ∷ entry 1 7 ∷ [])) 1 ≡ true }
    ensures not_contained { map.contains_call by_arrived (hashed_map_of 1 (entry 2 4 ∷ [])) 4 ≡ false }
{}

/// The ends of an ordered map, and the entries beside a key.
pub fn ends()
    ensures first_key { let c = map.first_key_call (ordered_map_of 1 (entry 10 1 ∷ entry 20 2 ∷ [])) in
        (c.reason ≡ None) × (c.answer ≡ Some 10) }
    ensures first_element { let c = map.first_element_call (ordered_map_of 1 (entry 10 1 ∷ entry 20 2 ∷ [])) in
        (c.reason ≡ None) × (c.answer ≡ Some 1) }
    ensures last_element { let c = map.last_element_call (ordered_map_of 1 (entry 10 1 ∷ entry 20 2 ∷ [])) in
        (c.reason ≡ None) × (c.answer ≡ Some 2) }
    ensures no_first_key { (map.first_key_call (ordered_map_of 1 [])).reason ≡ Some Empty }
    ensures no_last_key { (map.last_key_call (ordered_map_of 1 [])).reason ≡ Some Empty }
    ensures no_first_element { (map.first_element_call (ordered_map_of 1 [])).reason ≡ Some Empty }
    ensures no_last_element { (map.last_element_call (ordered_map_of 1 [])).reason ≡ Some Empty }
    ensures floor_there { map.floor_call by_number (ordered_map_of 1 (entry 10 1 ∷ entry 20 2 ∷ [])) 20 ≡ mark_at 1 2 }
    ensures ceiling_there { map.ceiling_call by_number (ordered_map_of 1 (entry 10 1 ∷ entry 20 2 ∷ [])) 10 ≡ mark_at 1 1 }
    ensures none_less { map.floor_call by_number (ordered_map_of 1 (entry 10 1 ∷ entry 20 2 ∷ [])) 9 ≡ no_mark }
    ensures delete_last { (ordered.delete_last_call (ordered_map_of 1 (entry 10 1 ∷ entry 20 2 ∷ []))).after.rows
        ≡ row 1 (entry 10 1) ∷ [] }
    ensures delete_first_of_none { let c = ordered.delete_first_call (ordered_map_of 1 []) in (c.reason ≡ None) × (c.after.rows ≡ []) }
    ensures delete_first_in_a_loop { (ordered.delete_first_call (guarded 1 0 (ordered_map_of 1 []))).reason ≡ Some CursorTampering }
    ensures delete_last_in_a_loop { (ordered.delete_last_call (guarded 1 0 (ordered_map_of 1 []))).reason ≡ Some CursorTampering }
{}

/// An entry is inserted with its position, included, or replaced with its key, which may be another of those equivalent to it.
pub fn entries_changed()
    ensures inserted { let c = map.insert_pos_call by_arrived (hashed_map_of 1 (entry 2 4 ∷ [])) 1 7 in
        (c.reason ≡ None) × (c.answer.inserted ≡ true) × (c.answer.position ≡ mark_at 1 2)
        × (c.after.rows ≡ row 1 (entry 2 4) ∷ row 2 (entry 1 7) ∷ []) × (c.after.next ≡ 3) }
    ensures found { let o = with_next 18446744073709551615 (hashed_map_of 1 (entry 2 4 ∷ [])) in
        let c = map.insert_pos_call by_arrived o 2 7 in (c.reason ≡ None) × (c.after ≡ o) }
    ensures insert_pos_in_a_loop { (map.insert_pos_call by_arrived (guarded 1 0 (hashed_map_of 1 (entry 2 4 ∷ []))) 2 7).reason
        ≡ Some CursorTampering }
    ensures included_new { let c = map.include_call by_arrived (hashed_map_of 1 (entry 2 4 ∷ [])) 1 7 in
        (c.reason ≡ None) × (c.after.rows ≡ row 1 (entry 2 4) ∷ row 2 (entry 1 7) ∷ []) }
    ensures include_in_a_loop { (map.include_call by_arrived (guarded 1 0 (hashed_map_of 1 (entry 2 4 ∷ []))) 2 7).reason
        ≡ Some CursorTampering }
    ensures replaced { let c = map.replace_call in_tens (hashed_map_of 1 (entry 21 4 ∷ entry 11 7 ∷ [])) 15 9 in
        (c.reason ≡ None) × (c.after.rows ≡ row 1 (entry 21 4) ∷ row 2 (entry 15 9) ∷ []) }
    ensures included_by_tens { (map.include_call in_tens (hashed_map_of 1 (entry 21 4 ∷ entry 11 7 ∷ [])) 15 9).after.rows
        ≡ row 1 (entry 21 4) ∷ row 2 (entry 15 9) ∷ [] }
    ensures tampering_before_absent { (map.replace_call by_arrived (guarded 0 1 (hashed_map_of 1 [])) 3 0).reason
        ≡ Some ElementTampering }
    ensures element_replaced { let o = guarded 1 0 (hashed_map_of 1 (entry 2 4 ∷ entry 1 7 ∷ [])) in
        let c = map.replace_element_call o (mark_at 1 2) 9 in
        (c.reason ≡ None) × (c.after.rows ≡ row 1 (entry 2 4) ∷ row 2 (entry 1 9) ∷ []) }
    ensures element_in_a_view { (map.replace_element_call (guarded 0 1 (hashed_map_of 1 [])) no_mark 9).reason ≡ Some ElementTampering }
    ensures written { let c = map.write_call (guarded 1 1 (hashed_map_of 1 (entry 2 4 ∷ []))) (mark_at 1 1) 9 in
        (c.reason ≡ None) × (c.after.rows ≡ row 1 (entry 2 9) ∷ []) }
    ensures written_dead { (map.write_call (hashed_map_of 1 (entry 2 4 ∷ [])) (mark_at 1 2) 9).reason ≡ Some DeadCursor }
    ensures full { (map.insert_call {T = ℕ} by_arrived (bounded_holding 1 1 (entry 2 4 ∷ [])) 1 7).reason ≡ Some CapacityFull }
    ensures include_full { (map.include_call {T = ℕ} by_arrived (bounded_holding 1 1 (entry 2 4 ∷ [])) 1 7).reason ≡ Some CapacityFull }
    ensures include_found_in_full { (map.include_call {T = ℕ} by_arrived (bounded_holding 1 1 (entry 2 4 ∷ [])) 2 7).reason ≡ None }
{}

/// An entry is excluded or deleted by its key, or deleted at a cursor, and guards forbid each of them first.
pub fn entries_deleted()
    ensures excluded { let c = map.exclude_call by_arrived (hashed_map_of 1 (entry 2 4 ∷ entry 1 7 ∷ entry 3 9 ∷ [])) 1 in
        (c.reason ≡ None) × (c.after.rows ≡ row 1 (entry 2 4) ∷ row 3 (entry 3 9) ∷ []) × (c.after.next ≡ 4) }
    ensures exclude_in_a_loop { (map.exclude_call by_arrived (guarded 1 0 (hashed_map_of 1 (entry 2 4 ∷ []))) 26).reason
        ≡ Some CursorTampering }
    ensures exclude_in_a_view { (map.exclude_call by_arrived (guarded 0 1 (hashed_map_of 1 (entry 2 4 ∷ []))) 26).reason
        ≡ Some ElementTampering }
    ensures delete_key_in_a_loop { (map.delete_key_call by_arrived (guarded 1 0 (hashed_map_of 1 [])) 26).reason ≡ Some CursorTampering }
    ensures matched { let c = keyed.delete_match_call (nat_eq 5) (vector_of 1 (4 ∷ 5 ∷ 6 ∷ [])) in
        (c.reason ≡ None) × (c.after.rows ≡ row 1 4 ∷ row 3 6 ∷ []) × (c.after.next ≡ 4) }
    ensures none_matched { (keyed.delete_match_call (nat_eq 7) (vector_of 1 (4 ∷ []))).reason ≡ Some KeyAbsent }
    ensures match_in_a_view { (keyed.delete_match_call (nat_eq 7) (guarded 0 1 (vector_of 1 (4 ∷ [])))).reason ≡ Some ElementTampering }
    ensures at_a_cursor { let c = keyed.delete_call (hashed_map_of 1 (entry 2 4 ∷ entry 1 7 ∷ [])) (mark_at 1 1) in
        (c.reason ≡ None) × (c.after.rows ≡ row 2 (entry 1 7) ∷ []) × (c.answer ≡ no_mark) }
    ensures delete_in_a_loop { (keyed.delete_call (guarded 1 0 (hashed_map_of 1 [])) no_mark).reason ≡ Some CursorTampering }
{}

/// Two maps are equal where they are as long and each key has an equal element in the other.
pub fn compared()
    ensures greater_right { let right = hashed_map_of 2 (entry 2 5 ∷ entry 3 4 ∷ []) in
        map.equal_call by_arrived nat_eq (hashed_map_of 1 (entry 3 4 ∷ [])) right ≡ false }
    ensures greater_left { let left = hashed_map_of 1 (entry 2 5 ∷ entry 3 4 ∷ []) in
        map.equal_call by_arrived nat_eq left (hashed_map_of 2 (entry 3 4 ∷ [])) ≡ false }
    ensures another_key { map.equal_call by_arrived nat_eq (hashed_map_of 1 (entry 3 4 ∷ [])) (hashed_map_of 2 (entry 2 4 ∷ [])) ≡ false }
    ensures elements_exchanged { let left = hashed_map_of 1 (entry 2 5 ∷ entry 3 4 ∷ []) in
        map.equal_call by_arrived nat_eq left (hashed_map_of 2 (entry 2 4 ∷ entry 3 5 ∷ [])) ≡ false }
{}
