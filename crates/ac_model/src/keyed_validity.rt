//! Every effect keeps a valid map or set valid: in order of arrival by any equivalence of keys, and ascending by any weak order.
ghost use Rattle.std.specs.Prelude.{◌≡◌, Bool, true, ℕ, None, Option};
ghost use Rattle.ac_base.specs.declared.reason.Reason.{Reason};
ghost use Rattle.ac_base.specs.Order.{IsWeakOrder, are_level};
ghost use Rattle.ac_model.specs.Rows.{Entry, is_named};
ghost use Rattle.ac_model.specs.Objects.{Object};
ghost use Rattle.ac_model.specs.Letters.{Mark, name_of};
ghost use Rattle.ac_model.specs.Common as common;
ghost use Rattle.ac_model.specs.Keyed as keyed;
ghost use Rattle.std.specs.Cmp.{IsEquivalence};
ghost use Rattle.ac_model.specs.Keyed.{Order, IsValidKeyed, KeepsKeyed, InEachOrder, on_key, by_arrival, ascending};
ghost use Rattle.ac_model.specs.Maps as map;
ghost use Rattle.ac_model.specs.Ordered as ordered;
ghost use Rattle.ac_model.specs.Sets as set;
ghost use Rattle.ac_model.specs.KeyedSets as by_key;

/// The calls that maps and sets have in common, and those of the ordered kinds.
pub fn keyed_calls<V>()
    ensures clear { InEachOrder (λ (order : Order V). (o : Object ℕ V) → KeepsKeyed order o (common.clear_call o)) }
    ensures assign { InEachOrder (λ (order : Order V). (target source : Object ℕ V) → IsValidKeyed order source →
        KeepsKeyed order target (common.assign_call target source)) }
    ensures move_from { InEachOrder (λ (order : Order V). (target source : Object ℕ V) → IsValidKeyed order target →
        IsValidKeyed order source → (common.move_from_call target source).reason ≡ None →
        IsValidKeyed order (common.move_from_call target source).after.target
        × IsValidKeyed order (common.move_from_call target source).after.source) }
    ensures insert { InEachOrder (λ (order : Order V). (o : Object ℕ V) (v : V) → KeepsKeyed order o (keyed.insert_call order o v)) }
    ensures insert_pos { InEachOrder (λ (order : Order V). (o : Object ℕ V) (v : V) →
        KeepsKeyed order o (keyed.insert_pos_call order o v)) }
    ensures include { InEachOrder (λ (order : Order V). (o : Object ℕ V) (v : V) → KeepsKeyed order o (keyed.include_call order o v)) }
    ensures replace { InEachOrder (λ (order : Order V). (tampering : Option Reason) (o : Object ℕ V) (v : V) →
        KeepsKeyed order o (keyed.replace_call tampering order o v)) }
    ensures exclude { InEachOrder (λ (order : Order V). (matches : V → Bool) (o : Object ℕ V) →
        KeepsKeyed order o (keyed.exclude_call matches o)) }
    ensures delete_match { InEachOrder (λ (order : Order V). (matches : V → Bool) (o : Object ℕ V) →
        KeepsKeyed order o (keyed.delete_match_call matches o)) }
    ensures delete { InEachOrder (λ (order : Order V). (o : Object ℕ V) (position : Mark) →
        KeepsKeyed order o (keyed.delete_call o position)) }
    ensures replace_element { InEachOrder (λ (order : Order V). (o : Object ℕ V) (c : Mark) (v : V) →
        KeepsKeyed order o (keyed.replace_element_call order o c v)) }
    ensures delete_first { InEachOrder (λ (order : Order V). (o : Object ℕ V) → KeepsKeyed order o (ordered.delete_first_call o)) }
    ensures delete_last { InEachOrder (λ (order : Order V). (o : Object ℕ V) → KeepsKeyed order o (ordered.delete_last_call o)) }
{}

/// The calls of sets.
pub fn set_calls<V>()
    ensures union { InEachOrder (λ (order : Order V). (target source : Object ℕ V) → IsValidKeyed order source →
        KeepsKeyed order target (set.union_call order target source)) }
    ensures intersection { InEachOrder (λ (order : Order V). (target source : Object ℕ V) →
        KeepsKeyed order target (set.intersection_call order target source)) }
    ensures difference { InEachOrder (λ (order : Order V). (target source : Object ℕ V) →
        KeepsKeyed order target (set.difference_call order target source)) }
    ensures symmetric_difference { InEachOrder (λ (order : Order V). (target source : Object ℕ V) → IsValidKeyed order source →
        KeepsKeyed order target (set.symmetric_difference_call order target source)) }
{}

/// The calls that sets with keys add: a copy that is written back keeps its set valid whether it keeps its key or not.
pub fn keyed_set_calls<K, V>()
    ensures hashed_key_replace { (key : V → K) (alike : K → K → Bool) → IsEquivalence alike → (o : Object ℕ V) (k : K) (element : V) →
        KeepsKeyed (on_key key (by_arrival alike)) o (by_key.key_replace_call key (by_arrival alike) o k element) }
    ensures ordered_key_replace { (key : V → K) (less : K → K → Bool) → IsWeakOrder less → (o : Object ℕ V) (k : K) (element : V) →
        KeepsKeyed (on_key key (ascending less)) o (by_key.key_replace_call key (ascending less) o k element) }
    ensures hashed_update { (key : V → K) (alike : K → K → Bool) → IsEquivalence alike → (o : Object ℕ V) (c : Mark) (copy : V) →
        IsValidKeyed (on_key key (by_arrival alike)) o → is_named o.rows (name_of c) ≡ true →
        IsValidKeyed (on_key key (by_arrival alike)) (by_key.end_update_key_call key (by_arrival alike) o c copy).after }
    ensures ordered_update { (key : V → K) (less : K → K → Bool) → IsWeakOrder less → (o : Object ℕ V) (c : Mark) (copy : V) →
        IsValidKeyed (on_key key (ascending less)) o → is_named o.rows (name_of c) ≡ true →
        IsValidKeyed (on_key key (ascending less)) (by_key.end_update_key_call key (ascending less) o c copy).after }
{}

/// An element of a map is changed under its key.
pub fn map_calls<K, T>()
    ensures hashed_replace_element { (alike : K → K → Bool) → IsEquivalence alike → (o : Object ℕ (Entry K T)) (c : Mark) (element : T) →
        KeepsKeyed (map.order_of (by_arrival alike)) o (map.replace_element_call o c element) }
    ensures ordered_replace_element { (less : K → K → Bool) → IsWeakOrder less → (o : Object ℕ (Entry K T)) (c : Mark) (element : T) →
        KeepsKeyed (map.order_of (ascending less)) o (map.replace_element_call o c element) }
    ensures hashed_write { (alike : K → K → Bool) → IsEquivalence alike → (o : Object ℕ (Entry K T)) (c : Mark) (element : T) →
        KeepsKeyed (map.order_of (by_arrival alike)) o (map.write_call o c element) }
    ensures ordered_write { (less : K → K → Bool) → IsWeakOrder less → (o : Object ℕ (Entry K T)) (c : Mark) (element : T) →
        KeepsKeyed (map.order_of (ascending less)) o (map.write_call o c element) }
{}
