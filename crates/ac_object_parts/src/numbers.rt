use ac_objects::{DeclareFault, Objects};
use ac_rules::ResolvedDecl;
use ac_syntax::{ElemKind, Kind, TypeDef};

/// The declaration of a list.
fn list_at(line: u64) -> ResolvedDecl {
    ResolvedDecl::Object {
        line,
        def: TypeDef {
            bounded: false,
            kind: Kind::List,
            first: ElemKind::Integer,
            second: None,
            keyed: false,
        },
        capacity: None,
    }
}

/// The line of the declaration that finds no number, where one doesn't.
fn spent_at(objects: &mut Objects, decls: &[ResolvedDecl]) -> Option<u64> {
    match objects.enter_scope(decls) {
        Err(DeclareFault::Spent { line }) => Some(line),
        _ => None,
    }
}

/// The number before the last one of 64 bits is given, and no later one.
#[test]
fn a_scope_goes_whole_where_numbers_are_spent(rt: HostRuntime) {
    let mut objects = Objects::starting_at(rt.alloc(), u64::MAX - 1).unwrap();
    assert!(rt; spent_at(&mut objects, &[list_at(2), list_at(3)]) == Some(3));
    assert!(rt; objects.names() == 0 && !objects.is_object(0));
}

#[test]
fn an_object_has_the_number_before_the_last(rt: HostRuntime) {
    let mut objects = Objects::starting_at(rt.alloc(), u64::MAX - 1).unwrap();
    assert!(rt; spent_at(&mut objects, &[list_at(2)]).is_none());
    assert!(rt; objects.names() == 1 && objects.is_object(0));
}
