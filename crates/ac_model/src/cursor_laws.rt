//! What a cursor means to an object without its slot: slots show in no answer.
ghost use Rattle.std.specs.Prelude.{◌≡◌, ◌≤◌, ℕ};
ghost use Rattle.ac_base.specs.declared.name.Name.{Name};
ghost use Rattle.ac_base.specs.declared.cursor.Cursor.{Cursor};
ghost use Rattle.ac_model.specs.Objects.{Object, IsValid, plain};
ghost use Rattle.ac_model.specs.Calls.{IsAfter};
ghost use Rattle.ac_model.specs.Cursors.{mark, plain_mark, seen, Agrees};
ghost use Rattle.ac_model.specs.Trees.{tree_mark, seen_in_tree, AgreesInTree};

/// A cursor whose slot is the one that the object would find means what it means without its slot.
pub fn without_slots<V>()
    ensures in_rows { (o : Object Name V) (c : Cursor) → Agrees o c → mark o c ≡ seen (plain o) (plain_mark c) }
    ensures in_tree { (o : Object Name V) (c : Cursor) → AgreesInTree o c → tree_mark o c ≡ seen_in_tree (plain o) (plain_mark c) }
{}

/// A call that keeps names keeps their slots: a cursor's is the one that the object would find afterwards too.
pub fn slots_stay<V>()
    ensures in_rows { (o now : Object Name V) (after : Object ℕ V) (c : Cursor) → IsValid (plain o) → Agrees o c →
        IsAfter o now after → after.number ≡ o.number → o.next ≤ after.next → Agrees now c }
    ensures in_tree { (o now : Object Name V) (after : Object ℕ V) (c : Cursor) → IsValid (plain o) → AgreesInTree o c →
        IsAfter o now after → after.number ≡ o.number → o.next ≤ after.next → AgreesInTree now c }
{}
