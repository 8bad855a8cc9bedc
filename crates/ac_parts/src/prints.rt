use ac_base::Value;
use ac_script::print;
use ac_syntax::{Arg, Args, Decl, Decls, ElemKind, Ident, Kind, Script, Stmt, Stmts, TypeDef};
use std::alloc::{AllocError, Global};
use std::test::Fail;

fn ident(alloc: Global, word: &[u8]) -> Result<Ident, AllocError> {
    Ok(Ident::new(word.to_vec(alloc)?))
}

/// A type of lists of integers and an object of it, on line 1.
fn a_list(alloc: Global) -> Result<Decls, AllocError> {
    let def = TypeDef {
        bounded: false,
        kind: Kind::List,
        first: ElemKind::Integer,
        second: None,
        keyed: false,
    };
    let mut decls = Vec::new(alloc);
    decls.push(Decl::TypeDecl {
        line: 1,
        name: ident(alloc, b"l")?,
        def,
    })?;
    decls.push(an_object(alloc)?)?;
    Ok(Decls::from_vec(decls))
}

fn an_object(alloc: Global) -> Result<Decl, AllocError> {
    Ok(Decl::Object {
        line: 1,
        name: ident(alloc, b"a")?,
        of: ident(alloc, b"l")?,
        capacity: None,
    })
}

fn append(alloc: Global, line: u64, value: i64) -> Result<Stmt, AllocError> {
    Ok(Stmt::Call {
        line,
        target: None,
        object: ident(alloc, b"a")?,
        op: ident(alloc, b"append")?,
        args: Args::from_vec(vec![in alloc; Arg::Lit(Value::Int(value))]?),
    })
}

const LIST: &[u8] = b"type l is list (integer); a : l;\na.append (-7);\n";

const BLOCK: &[u8] =
    b"type l is list (integer); a : l;\n\nstable a do a.append (1);\n\na.append (2); end;\n";

/// One command.
fn a_command(alloc: Global) -> Result<Script, AllocError> {
    let mut stmts = Vec::new(alloc);
    stmts.push(append(alloc, 2, -7)?)?;
    Ok(Script {
        pragma: None,
        decls: a_list(alloc)?,
        stmts: Stmts::from_vec(stmts),
    })
}

/// A block of two commands.
fn stable(alloc: Global) -> Result<Stmt, AllocError> {
    let mut body = Vec::new(alloc);
    body.push(append(alloc, 3, 1)?)?;
    body.push(append(alloc, 5, 2)?)?;
    Ok(Stmt::Stable {
        line: 3,
        object: ident(alloc, b"a")?,
        body: Stmts::from_vec(body),
    })
}

fn a_block(alloc: Global) -> Result<Script, AllocError> {
    let mut stmts = Vec::new(alloc);
    stmts.push(stable(alloc)?)?;
    Ok(Script {
        pragma: None,
        decls: a_list(alloc)?,
        stmts: Stmts::from_vec(stmts),
    })
}

/// Whether a script is printed so.
fn is_printed(alloc: Global, script: &Script, wanted: &[u8]) -> bool {
    match print(alloc, script) {
        Ok(text) => text.as_slice() == wanted,
        Err(_) => false,
    }
}

#[test]
fn prints_a_command(rt: HostRuntime) -> Result<(), Fail> {
    let script = a_command(rt.alloc())?;
    assert!(rt; is_printed(rt.alloc(), &script, LIST));
    Ok(())
}

#[test]
fn prints_a_block(rt: HostRuntime) -> Result<(), Fail> {
    let script = a_block(rt.alloc())?;
    assert!(rt; is_printed(rt.alloc(), &script, BLOCK));
    Ok(())
}
