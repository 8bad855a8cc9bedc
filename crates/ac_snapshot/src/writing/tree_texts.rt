//! Trees as Print lists them: nodes in preorder, with brackets around the children of each.
ghost use Rattle.std.specs.Prelude.{◌≡◌, ◌++◌, OnOk, map, replicate};
ghost use Rattle.ac_syntax.specs.Canonical.{literal_text};
ghost use Rattle.ac_calls.specs.Listings.{between_nodes, nodes_after, nodes_listing, tree_listing};
ghost use Rattle.ac_snapshot.specs.StateTexts.{node_of};

use ac_calls::PlainRow;
use ac_printer::append_literal;
use std::alloc::AllocError;

/// Closes as many brackets.
fn close(text: &mut Vec<u8>, brackets: u64) -> Result<(), AllocError>
    ensures { OnOk result (text.new.items ≡ text.old.items ++ replicate brackets 93) }
{
    for _ in 0..brackets {
        text.push(b']')?;
    }
    Ok(())
}

/// Adds what stands between a node of one depth and the next.
fn append_between(text: &mut Vec<u8>, depth: u64, next: u64) -> Result<(), AllocError>
    ensures { OnOk result (text.new.items ≡ text.old.items ++ between_nodes depth next) }
{
    if depth < next {
        text.extend_from_slice(b" [")
    } else {
        close(text, depth - next)?;
        text.extend_from_slice(b", ")
    }
}

/// Adds what follows a node of this depth.
fn append_more_nodes(text: &mut Vec<u8>, depth: u64, rows: &[PlainRow]) -> Result<(), AllocError>
    ensures { OnOk result (text.new.items ≡ text.old.items ++ nodes_after literal_text depth (map node_of rows.now)) }
{
    let mut level = depth;
    for row in rows {
        append_between(text, level, row.depth)?;
        append_literal(text, &row.value)?;
        level = row.depth;
    }
    close(text, level.saturating_sub(2))
}

fn append_nodes(text: &mut Vec<u8>, rows: &[PlainRow]) -> Result<(), AllocError>
    ensures { OnOk result (text.new.items ≡ text.old.items ++ nodes_listing literal_text (map node_of rows.now)) }
{
    match rows {
        [] => Ok(()),
        [first, more @ ..] => {
            append_literal(text, &first.value)?;
            append_more_nodes(text, first.depth, more)
        }
    }
}

/// Adds the nodes of a tree.
pub fn append_tree(text: &mut Vec<u8>, rows: &[PlainRow]) -> Result<(), AllocError>
    ensures { OnOk result (text.new.items ≡ text.old.items ++ tree_listing literal_text (map node_of rows.now)) }
{
    text.extend_from_slice(b"[")?;
    append_nodes(text, rows)?;
    text.extend_from_slice(b"]")
}
