use ac_base::Name;
use ac_chain::Chain;
use std::alloc::Global;
use std::process::Abort;
use std::test::Fail;

fn put<T: Drop>(rt: &impl Abort, chain: &mut Chain<T>, place: Option<Name>, v: T) -> Name {
    assert!(rt; chain.len() < 1000);
    assert!(rt; chain.reserve(1).is_ok());
    assert!(rt; chain.spare() > 0);
    assert!(rt; chain.next_serial() < u64::MAX);
    if let Some(name) = place {
        assert!(rt; chain.is_live(name));
        chain.insert_before(Some(name), v)
    } else {
        chain.insert_before(None, v)
    }
}

fn value_at(rt: &impl Abort, chain: &Chain<u64>, name: Name) -> u64 {
    assert!(rt; chain.is_live(name));
    *chain.at(name)
}

fn move_row(rt: &impl Abort, chain: &mut Chain<u64>, place: Option<Name>, name: Name) {
    assert!(rt; chain.is_live(name));
    if let Some(before) = place {
        assert!(rt; chain.is_live(before));
        chain.move_before(Some(before), name);
    } else {
        chain.move_before(None, name);
    }
}

fn swap_rows(rt: &impl Abort, chain: &mut Chain<u64>, a: Name, b: Name) {
    assert!(rt; chain.is_live(a));
    assert!(rt; chain.is_live(b));
    chain.swap_links(a, b);
}

fn relink_three(rt: &impl Abort, chain: &mut Chain<u64>, a: Name, b: Name, c: Name) {
    assert!(rt; chain.is_live(a));
    assert!(rt; chain.is_live(b));
    assert!(rt; chain.is_live(c));
    assert!(rt; a.slot != b.slot);
    assert!(rt; a.slot != c.slot);
    assert!(rt; b.slot != c.slot);
    assert!(rt; chain.len() == 3);
    chain.relink(&[a, b, c]);
}

// The serials and values that a walk meets, and the same backwards.
fn is_row_of(rt: &impl Abort, chain: &Chain<u64>, rows: &[(u64, u64)]) -> bool {
    if chain.len() != rows.len() as u64 {
        return false;
    }
    let mut at = chain.first();
    for (serial, value) in rows {
        let Some(name) = at else {
            return false;
        };
        assert!(rt; chain.is_live(name));
        if name.serial != *serial || *chain.at(name) != *value {
            return false;
        }
        at = chain.next(name);
    }
    if at.is_some() {
        return false;
    }
    let mut back = chain.last();
    for (serial, _) in rows.iter().rev() {
        let Some(name) = back else {
            return false;
        };
        if name.serial != *serial {
            return false;
        }
        assert!(rt; chain.is_live(name));
        back = chain.prev(name);
    }
    back.is_none()
}

#[test]
fn rows_swap_and_are_put_back(rt: HostRuntime) {
    let mut chain = Chain::new(rt.alloc());
    let a = put(&rt, &mut chain, None, 1u64);
    let b = put(&rt, &mut chain, None, 2);
    let c = put(&rt, &mut chain, None, 3);
    swap_rows(&rt, &mut chain, a, c);
    assert!(rt; is_row_of(&rt, &chain, &[(3, 3), (2, 2), (1, 1)]));
    relink_three(&rt, &mut chain, a, b, c);
    assert!(rt; is_row_of(&rt, &chain, &[(1, 1), (2, 2), (3, 3)]));
    swap_rows(&rt, &mut chain, a, b);
    assert!(rt; is_row_of(&rt, &chain, &[(2, 2), (1, 1), (3, 3)]));
    swap_rows(&rt, &mut chain, a, b);
    swap_rows(&rt, &mut chain, c, c);
    assert!(rt; is_row_of(&rt, &chain, &[(1, 1), (2, 2), (3, 3)]));
    chain.reverse();
    assert!(rt; is_row_of(&rt, &chain, &[(3, 3), (2, 2), (1, 1)]));
}

#[test]
fn a_row_moves(rt: HostRuntime) {
    let mut chain = Chain::new(rt.alloc());
    let a = put(&rt, &mut chain, None, 1u64);
    let c = put(&rt, &mut chain, None, 3);
    let b = put(&rt, &mut chain, Some(c), 2);
    assert!(rt; is_row_of(&rt, &chain, &[(1, 1), (3, 2), (2, 3)]));
    move_row(&rt, &mut chain, Some(b), a);
    move_row(&rt, &mut chain, Some(a), a);
    assert!(rt; is_row_of(&rt, &chain, &[(1, 1), (3, 2), (2, 3)]));
    move_row(&rt, &mut chain, None, a);
    assert!(rt; is_row_of(&rt, &chain, &[(3, 2), (2, 3), (1, 1)]));
    move_row(&rt, &mut chain, Some(b), a);
    assert!(rt; is_row_of(&rt, &chain, &[(1, 1), (3, 2), (2, 3)]));
}

fn swap_values(rt: &impl Abort, chain: &mut Chain<u64>, a: Name, b: Name) {
    assert!(rt; chain.is_live(a));
    assert!(rt; chain.is_live(b));
    chain.swap_values(a, b);
}

fn remove(rt: &impl Abort, chain: &mut Chain<u64>, name: Name) -> u64 {
    assert!(rt; chain.is_live(name));
    chain.remove(name)
}

/// A chain with room for so many rows.
fn with_slots(rt: &impl Abort, alloc: Global, slots: u64) -> Chain<u64> {
    assert!(rt; slots == 2);
    match Chain::with_slots(alloc, slots) {
        Ok(chain) => chain,
        Err(_) => panic!(rt; "no memory"),
    }
}

#[test]
fn values_change_under_their_names(rt: HostRuntime) {
    let mut chain = Chain::new(rt.alloc());
    let a = put(&rt, &mut chain, None, 1u64);
    let b = put(&rt, &mut chain, None, 2);
    swap_values(&rt, &mut chain, a, b);
    assert!(rt; is_row_of(&rt, &chain, &[(1, 2), (2, 1)]));
    assert!(rt; chain.is_live(a));
    *chain.at_mut(a) = 7;
    assert!(rt; value_at(&rt, &chain, a) == 7);
}

#[test]
fn a_removed_row_leaves_its_slot(rt: HostRuntime) {
    let mut chain = with_slots(&rt, rt.alloc(), 2);
    put(&rt, &mut chain, None, 1);
    let b = put(&rt, &mut chain, None, 2);
    assert!(rt; chain.spare() == 0);
    assert!(rt; remove(&rt, &mut chain, b) == 2);
    assert!(rt; !chain.is_live(b));
    assert!(rt; chain.spare() == 1);
    assert!(rt; chain.next_serial() == 3);
}

#[test]
fn an_emptied_chain_keeps_its_slots(rt: HostRuntime) {
    let mut chain = with_slots(&rt, rt.alloc(), 2);
    put(&rt, &mut chain, None, 1);
    chain.clear();
    assert!(rt; chain.len() == 0 && chain.spare() == 2);
    assert!(rt; chain.first().is_none() && chain.last().is_none());
    assert!(rt; chain.reserve(3).is_ok());
    assert!(rt; chain.spare() == 8);
}

/// Its first row has the serial with which it starts, here the last one that a chain gives.
#[test]
fn a_chain_starts_at_a_serial(rt: HostRuntime) {
    let mut chain = Chain::starting_at(rt.alloc(), u64::MAX - 1);
    assert!(rt; chain.next_serial() == u64::MAX - 1 && chain.spare() == 0);
    let name = put(&rt, &mut chain, None, 1u64);
    assert!(rt; name.serial == u64::MAX - 1 && chain.next_serial() == u64::MAX);
    assert!(rt; value_at(&rt, &chain, name) == 1);
}

fn pick(state: &mut u64, below: usize) -> usize {
    *state = state
        .wrapping_mul(6364136223846793005)
        .wrapping_add(1442695040888963407);
    if below == 0 {
        0
    } else {
        (*state >> 33) as usize % below
    }
}

fn put_both(
    rt: &impl Abort,
    chain: &mut Chain<u64>,
    rows: &mut Vec<(Name, u64)>,
    i: usize,
    value: u64,
) -> Result<(), Fail> {
    assert!(rt; i <= rows.len());
    let place = rows.get(i).map(|row| row.0);
    let name = put(rt, chain, place, value);
    rows.insert(i, (name, value))?;
    Ok(())
}

fn remove_both(rt: &impl Abort, chain: &mut Chain<u64>, rows: &mut Vec<(Name, u64)>, i: usize) {
    assert!(rt; i < rows.len());
    let (name, value) = rows.remove(i);
    assert!(rt; chain.is_live(name));
    assert!(rt; chain.remove(name) == value);
}

fn swap_both(
    rt: &impl Abort,
    chain: &mut Chain<u64>,
    rows: &mut Vec<(Name, u64)>,
    i: usize,
    j: usize,
) {
    assert!(rt; i < rows.len());
    assert!(rt; j < rows.len());
    swap_rows(rt, chain, rows[i].0, rows[j].0);
    rows.swap(i, j);
}

fn move_both(
    rt: &impl Abort,
    chain: &mut Chain<u64>,
    rows: &mut Vec<(Name, u64)>,
    i: usize,
    j: usize,
) -> Result<(), Fail> {
    assert!(rt; i < rows.len());
    assert!(rt; j < rows.len());
    move_row(rt, chain, Some(rows[j].0), rows[i].0);
    let row = rows.remove(i);
    let to = if i < j { j - 1 } else { j };
    assert!(rt; to <= rows.len());
    rows.insert(to, row)?;
    Ok(())
}

fn swap_both_values(
    rt: &impl Abort,
    chain: &mut Chain<u64>,
    rows: &mut Vec<(Name, u64)>,
    i: usize,
    j: usize,
) {
    assert!(rt; i < rows.len());
    assert!(rt; j < rows.len());
    swap_values(rt, chain, rows[i].0, rows[j].0);
    let value = rows[i].1;
    rows[i].1 = rows[j].1;
    rows[j].1 = value;
}

fn step_both(
    rt: &impl Abort,
    chain: &mut Chain<u64>,
    rows: &mut Vec<(Name, u64)>,
    state: &mut u64,
    turn: u64,
) -> Result<(), Fail> {
    let len = rows.len();
    let i = pick(state, len);
    let j = pick(state, len);
    let what = pick(state, 8);
    if len == 0 || (what < 2 && len < 100) {
        return put_both(rt, chain, rows, i, turn);
    }
    match what {
        4 => swap_both(rt, chain, rows, i, j),
        5 => return move_both(rt, chain, rows, i, j),
        6 => swap_both_values(rt, chain, rows, i, j),
        7 => {
            chain.reverse();
            rows.reverse();
        }
        _ => remove_both(rt, chain, rows, i),
    }
    Ok(())
}

fn agree(
    rt: &impl Abort,
    alloc: Global,
    chain: &Chain<u64>,
    rows: &[(Name, u64)],
) -> Result<bool, Fail> {
    let mut plain = Vec::new(alloc);
    for row in rows {
        plain.push((row.0.serial, row.1))?;
    }
    Ok(is_row_of(rt, chain, plain.as_slice()))
}

// The same steps on a chain and on a plain list of rows.
#[test]
fn a_long_walk_agrees_with_a_list(rt: HostRuntime) -> Result<(), Fail> {
    let mut chain = Chain::new(rt.alloc());
    let mut rows = Vec::new(rt.alloc());
    let mut state = 20_260_101;
    for turn in 0..100_000u64 {
        step_both(&rt, &mut chain, &mut rows, &mut state, turn)?;
        if turn % 1000 == 999 {
            assert!(rt; agree(&rt, rt.alloc(), &chain, &rows)?);
        }
    }
    Ok(())
}
