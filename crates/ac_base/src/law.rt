//! Examples, and what holds of values, growths and reasons.
ghost use Rattle.std.specs.Prelude.{◌≡◌, ◌≤◌, ◌↔◌, ◌∷◌, [], ℕ, List, Option, None, Some, length};
ghost use Rattle.ac_base.specs.FirstReason.{first_reason, AllNone, NoneEarlier};
ghost use Rattle.ac_base.specs.Tampering.{forbids};
ghost use Rattle.ac_base.specs.declared.guard.Class.TheVariants as class;
ghost use Rattle.ac_base.specs.declared.reason.Reason.{Reason};
ghost use Rattle.ac_base.specs.declared.reason.Reason.TheVariants.{CursorTampering, ElementTampering, NoElement, ForeignCursor, DeadCursor, RootNode, NotChild, NotLeaf, LengthRange, CapacityFull, NamesSpent};
ghost use Rattle.ac_base.specs.Growth.{pow8, IsLeastPow8};
ghost use Rattle.ac_base.specs.Text.{IsText, first_bad_place};
ghost use Rattle.ac_base.specs.Examples.{HashOfEmpty, HashOfLetter, HashOfZero, WideHashOfOne, KeyBeforeSign, KeyWithoutSign, FrontIsLess, FirstDifferenceDecides, NegativeIsLess};

/// Worked hashes, keys and orders.
#[tactic(auto, unfolding(crate::specs::Hash::hash_of_bytes))]
pub fn examples()
    ensures hash_of_empty { HashOfEmpty }
    ensures hash_of_letter { HashOfLetter }
    ensures hash_of_zero { HashOfZero }
    ensures wide_hash_of_one { WideHashOfOne }
    ensures key_before_sign { KeyBeforeSign }
    ensures key_without_sign { KeyWithoutSign }
    ensures front_is_less { FrontIsLess }
    ensures first_difference_decides { FirstDifferenceDecides }
    ensures negative_is_less { NegativeIsLess }
{}

/// A text is bytes with no bad place, and not too many of them.
#[tactic(auto, using(crate::specs::TextLaws::text_exactly))]
pub fn texts()
    ensures { (bytes : List ℕ) → IsText bytes ↔ ((first_bad_place bytes ≡ None) × (length bytes ≤ 1000)) }
{}

/// What a growth makes is the least `8 * 2^k` that is enough.
pub fn growths()
    ensures least { (n : ℕ) → IsLeastPow8 n (pow8 n) }
{}

/// A cursor guard forbids calls that tamper with cursors, and an element guard forbids those that tamper with either.
pub fn classes_under_guards()
    ensures cursors { forbids class.Cursors 1 0 ≡ Some CursorTampering }
    ensures cursors_under_elements { forbids class.Cursors 0 1 ≡ Some ElementTampering }
    ensures cursors_under_both { forbids class.Cursors 2 3 ≡ Some CursorTampering }
    ensures cursors_under_none { forbids class.Cursors 0 0 ≡ None }
    ensures elements { forbids class.Elements 0 1 ≡ Some ElementTampering }
    ensures elements_under_cursors { forbids class.Elements 1 0 ≡ None }
{}

/// The reason of the earliest step is raised, wherever it stands among those that were found.
pub fn steps_in_order()
    ensures tampering { first_reason (Some NoElement ∷ Some CursorTampering ∷ []) ≡ Some CursorTampering }
    ensures no_element { first_reason (Some ForeignCursor ∷ None ∷ Some NoElement ∷ []) ≡ Some NoElement }
    ensures foreign { first_reason (Some DeadCursor ∷ Some ForeignCursor ∷ []) ≡ Some ForeignCursor }
    ensures dead { first_reason (Some RootNode ∷ Some DeadCursor ∷ []) ≡ Some DeadCursor }
    ensures root { first_reason (Some NotChild ∷ Some RootNode ∷ []) ≡ Some RootNode }
    ensures own { first_reason (Some LengthRange ∷ Some NotLeaf ∷ Some NotChild ∷ []) ≡ Some NotLeaf }
    ensures length { first_reason (Some CapacityFull ∷ Some LengthRange ∷ []) ≡ Some LengthRange }
    ensures capacity { first_reason (Some NamesSpent ∷ Some CapacityFull ∷ []) ≡ Some CapacityFull }
    ensures names { first_reason (None ∷ Some NamesSpent ∷ []) ≡ Some NamesSpent }
{}

/// There is a first reason wherever one was found, and none that was found is of an earlier step.
pub fn first_of_all()
    ensures none { (found : List (Option Reason)) → first_reason found ≡ None → AllNone found }
    ensures earliest { (found : List (Option Reason)) (reason : Reason) → first_reason found ≡ Some reason → NoneEarlier reason found }
{}
