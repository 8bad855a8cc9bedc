use ac_base::Name;
use ac_pool::Pool;
use std::alloc::{AllocError, Global};

/// How many values are live at a time.
const LIVE: u64 = 1000;

/// Puts a value where there is room for one.
#[inline(always)]
fn put(pool: &mut Pool<u64>, value: u64) -> Option<Name> {
    if pool.live() < LIVE {
        pool.put(value).ok()
    } else {
        None
    }
}

/// Replaces each value by another, under a fresh name.
fn replace_all(pool: &mut Pool<u64>, names: &mut [Name], value: u64) {
    for name in names.iter_mut() {
        let _gone = pool.take(*name);
        if let Some(fresh) = put(pool, value) {
            *name = fresh;
        }
    }
}

/// Puts and takes so many values, with a thousand live at a time, and gives the number of slots.
pub fn churn(alloc: Global, rounds: u64) -> Result<u64, AllocError> {
    let mut pool = Pool::new(alloc);
    let mut names = Vec::new(alloc);
    for value in 0..LIVE {
        if let Some(name) = put(&mut pool, value) {
            names.push(name)?;
        }
    }
    for round in 0..rounds / LIVE {
        replace_all(&mut pool, &mut names, round);
    }
    Ok(pool.slots())
}
