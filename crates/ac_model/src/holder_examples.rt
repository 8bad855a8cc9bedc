//! Examples of holder calls. An element is a list of bytes, and its size is its length.
ghost use Rattle.std.specs.Prelude.{◌≡◌, ◌∷◌, [], ℕ, List, length, nat_eq, codes, true, false, None, Some};
ghost use Rattle.ac_base.specs.declared.reason.Reason.TheVariants.{ElementTampering, Empty, TooLarge};
ghost use Rattle.ac_model.specs.Holders as holder;
ghost use Rattle.ac_model.specs.Sequences.{are_equal};
ghost use Rattle.ac_model.specs.Examples.{holder_of, holder_guarded};
ghost use Rattle.ac_base.specs.declared.guard.GuardKind.TheVariants as kind;

/// A bounded holder refuses what is too large, and a view lets its element be written and not be cleared.
pub fn bounded()
    ensures empty { (holder.element_call (holder_of 1 3 None)).reason ≡ Some Empty }
    ensures too_large { (holder.replace_element_call length (holder_of 1 3 None) (codes "abcd")).reason ≡ Some TooLarge }
    ensures replaced { let c = holder.replace_element_call length (holder_of 1 3 None) (codes "abc") in
        (c.reason ≡ None) × (c.after.element ≡ Some (codes "abc")) }
    ensures written { let c = holder.write_call length (holder_guarded (holder_of 1 3 (Some (codes "abc")))) (codes "a-b") in
        (c.reason ≡ None) × (c.after.element ≡ Some (codes "a-b")) }
    ensures cleared { (holder.clear_call (holder_guarded (holder_of 1 3 (Some (codes "a-b"))))).reason ≡ Some ElementTampering }
{}

/// Move empties the source, and an exchange is refused where either element is too large for the other.
pub fn moved()
    ensures moved_from { let c = holder.move_from_call length (holder_of 1 3 None) (holder_of 2 9 (Some (codes "ab"))) in
        (c.reason ≡ None) × (c.after.target.element ≡ Some (codes "ab")) × (c.after.source.element ≡ None) }
    ensures swapped { (holder.swap_call length (holder_of 1 9 (Some (codes "abcd"))) (holder_of 2 3 (Some (codes "ab")))).reason
        ≡ Some TooLarge }
    ensures tampering_first { (holder.swap_call length (holder_of 1 9 (Some (codes "abcd"))) (holder_guarded (holder_of 2 3 None))).reason
        ≡ Some ElementTampering }
{}

/// A write finds no element before it finds the new one too large.
pub fn written_in_steps()
    ensures { (holder.write_call length (holder_of 1 3 None) (codes "abcd")).reason ≡ Some Empty }
{}

/// What a holder holds, and whether two hold the same.
pub fn held()
    ensures empty { holder.is_empty_call (holder_of 1 3 None) ≡ true }
    ensures not_empty { holder.is_empty_call (holder_of 1 3 (Some (codes "a"))) ≡ false }
    ensures element { let c = holder.element_call (holder_guarded (holder_of 1 3 (Some (codes "a")))) in
        (c.reason ≡ None) × (c.answer ≡ Some (codes "a")) }
    ensures equal { holder.equal_call (are_equal nat_eq) (holder_of 1 3 (Some (codes "ab"))) (holder_of 2 9 (Some (codes "ab"))) ≡ true }
    ensures unequal { holder.equal_call (are_equal nat_eq) (holder_of 1 3 (Some (codes "ab"))) (holder_of 2 3 (Some (codes "ac"))) ≡ false }
    ensures both_empty { holder.equal_call (are_equal nat_eq) (holder_of 1 3 None) (holder_of 2 9 None) ≡ true }
    ensures left_empty { holder.equal_call (are_equal nat_eq) (holder_of 1 3 None) (holder_of 2 3 (Some (codes "a"))) ≡ false }
    ensures right_empty { holder.equal_call (are_equal nat_eq) (holder_of 1 3 (Some (codes "a"))) (holder_of 2 3 None) ≡ false }
{}

/// Clear leaves nothing, also where nothing was, and Assign copies what there is.
pub fn assigned()
    ensures cleared { let c = holder.clear_call (holder_of 1 3 (Some (codes "a"))) in (c.reason ≡ None) × (c.after ≡ holder_of 1 3 None) }
    ensures cleared_none { (holder.clear_call (holder_of 1 3 None)).reason ≡ None }
    ensures replaced_in_a_view { (holder.replace_element_call length (holder_guarded (holder_of 1 3 None)) (codes "abcd")).reason
        ≡ Some ElementTampering }
    ensures element { let c = holder.assign_call length (holder_of 1 3 (Some (codes "x"))) (holder_of 2 9 (Some (codes "abc"))) in
        (c.reason ≡ None) × (c.after ≡ holder_of 1 3 (Some (codes "abc"))) }
    ensures none { let c = holder.assign_call length (holder_of 1 3 (Some (codes "x"))) (holder_of 2 9 None) in
        (c.reason ≡ None) × (c.after ≡ holder_of 1 3 None) }
    ensures too_large { (holder.assign_call length (holder_of 1 3 None) (holder_of 2 9 (Some (codes "abcd")))).reason ≡ Some TooLarge }
    ensures in_a_view { (holder.assign_call length (holder_guarded (holder_of 1 3 None)) (holder_of 2 9 (Some (codes "abcd")))).reason
        ≡ Some ElementTampering }
    ensures from_a_view { (holder.assign_call length (holder_of 1 3 None) (holder_guarded (holder_of 2 9 None))).reason ≡ None }
{}

/// Move and Swap look at both holders' guards, then at the sizes.
pub fn exchanged()
    ensures moved_none { let c = holder.move_from_call length (holder_of 1 3 (Some (codes "x"))) (holder_of 2 9 None) in
        (c.reason ≡ None) × (c.after.target ≡ holder_of 1 3 None) × (c.after.source ≡ holder_of 2 9 None) }
    ensures moved_too_large { (holder.move_from_call length (holder_of 1 3 None) (holder_of 2 9 (Some (codes "abcd")))).reason
        ≡ Some TooLarge }
    ensures moved_from_a_view { let source = holder_guarded (holder_of 2 9 (Some (codes "abcd"))) in
        (holder.move_from_call length (holder_of 1 3 None) source).reason ≡ Some ElementTampering }
    ensures moved_in_a_view { let target = holder_guarded (holder_of 1 3 None) in
        (holder.move_from_call length target (holder_of 2 9 None)).reason ≡ Some ElementTampering }
    ensures swapped { let c = holder.swap_call length (holder_of 1 9 (Some (codes "ab"))) (holder_of 2 3 (Some (codes "cde"))) in
        (c.reason ≡ None) × (c.after.target ≡ holder_of 1 9 (Some (codes "cde"))) × (c.after.source ≡ holder_of 2 3 (Some (codes "ab"))) }
    ensures swapped_with_none { let c = holder.swap_call length (holder_of 1 9 None) (holder_of 2 3 (Some (codes "cde"))) in
        (c.after.target ≡ holder_of 1 9 (Some (codes "cde"))) × (c.after.source ≡ holder_of 2 3 None) }
    ensures too_large_for_the_target { let source = holder_of 2 9 (Some (codes "abcd")) in
        (holder.swap_call length (holder_of 1 3 None) source).reason ≡ Some TooLarge }
    ensures swapped_in_a_view { (holder.swap_call length (holder_guarded (holder_of 1 9 None)) (holder_of 2 3 None)).reason
        ≡ Some ElementTampering }
{}

/// With itself a holder stays as it is, but for a view that forbids the call.
pub fn with_itself()
    ensures assigned { let h = holder_of 1 3 (Some (codes "a")) in let c = holder.assign_self_call h in (c.reason ≡ None) × (c.after ≡ h) }
    ensures moved { let h = holder_of 1 3 (Some (codes "a")) in let c = holder.move_from_self_call h in (c.reason ≡ None) × (c.after ≡ h) }
    ensures swapped { let h = holder_of 1 3 (Some (codes "a")) in let c = holder.swap_self_call h in (c.reason ≡ None) × (c.after ≡ h) }
    ensures assigned_in_a_view { (holder.assign_self_call (holder_guarded (holder_of 1 3 None))).reason ≡ Some ElementTampering }
    ensures moved_in_a_view { (holder.move_from_self_call (holder_guarded (holder_of 1 3 None))).reason ≡ Some ElementTampering }
    ensures swapped_in_a_view { (holder.swap_self_call (holder_guarded (holder_of 1 3 None))).reason ≡ Some ElementTampering }
{}

/// A guard of a holder is counted, and its release counts it off; a view of none is refused.
pub fn viewed()
    ensures held { holder.hold_call kind.Elements (holder_of 1 3 None) ≡ holder_guarded (holder_of 1 3 None) }
    ensures released { holder.release_call kind.Elements (holder_guarded (holder_of 1 3 None)) ≡ holder_of 1 3 None }
    ensures element { holder.view_reason (holder_guarded (holder_of 1 3 (Some (codes "a")))) ≡ None }
    ensures none { holder.view_reason (holder_of 1 3 None) ≡ Some Empty }
{}
