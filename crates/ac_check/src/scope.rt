//! The names in scope.
ghost use Rattle.std.specs.Prelude.{◌≡◌, ◌++◌, ◌∷◌, [], false, length, take, OnOk, IfOk, IfErr};
ghost use Rattle.std.specs.Option.{option_map};
ghost use Rattle.ac_rules.specs.Scopes.{entry, meaning_in};
ghost use Rattle.ac_check.specs.Meanings.{meaning_view};
ghost use Rattle.ac_check.specs.NameOrders.{IsNameOrder, IsPlace, IsGap, bytes_of, name_cmp};
ghost use Rattle.ac_rules.specs.Faults.{is_in_scope};
ghost use Rattle.ac_rules.specs.Resolved.{place_of};

use crate::meaning::Meaning;
use ac_base::NoMemory;
use std::alloc::Global;
use std::cmp::Ordering;
use std::marker::Model;

/// The names in scope in the order of their declarations, each with what it stands for, and their places in the order of their bytes.
/// A name is found by halving, so that no choice of names makes a look-up long.
#[derive(Drop)]
pub struct Scope {
    names: Vec<(Vec<u8>, Meaning)>,
    sorted: Vec<usize>,
}

impl Model for Scope {
    ghost use Rattle.std.specs.Prelude.{List};
    ghost use Rattle.ac_rules.specs.Scopes.{Entry};
    ghost use Rattle.ac_check.specs.Meanings.{entries_view};
    ghost use Rattle.ac_check.specs.NameOrders.{IsNameOrder, bytes_of};

    ghost Value = { List Entry };

    ghost view = { λ scope. entries_view scope.names.items };

    ghost invariant = { λ scope. IsNameOrder (bytes_of scope.names.items) scope.sorted.items };
}

/// How two names stand to each other by their bytes, one by one, since names are short.
fn compare(left: &[u8], right: &[u8]) -> Ordering
    ensures { result ≡ name_cmp left.now right.now }
{
    for at in 0..left.len().min(right.len()) {
        let found = left[at].cmp(&right[at]);
        if found.is_ne() {
            return found;
        }
    }
    left.len().cmp(&right.len())
}

/// The place of the name, or where among the sorted places its own would stand.
fn search(names: &[(Vec<u8>, Meaning)], sorted: &[usize], name: &[u8]) -> Result<usize, usize>
    requires { IsNameOrder (bytes_of names.now) sorted.now }
    ensures found { IfOk result (IsPlace (bytes_of names.now) name.now) }
    ensures absent { IfErr result (IsGap (bytes_of names.now) sorted.now name.now) }
{
    let mut low = 0;
    let mut high = sorted.len();
    while low < high {
        let middle = low + (high - low) / 2;
        let place = sorted[middle];
        match compare(&names[place].0, name) {
            Ordering::Equal => return Ok(place),
            Ordering::Less => low = middle + 1,
            Ordering::Greater => high = middle,
        }
    }
    Err(low)
}

impl Scope {
    pub fn new(alloc: Global) -> Scope
        ensures { result ≡ [] }
    {
        Scope {
            names: Vec::new(alloc),
            sorted: Vec::new(alloc),
        }
    }

    pub fn alloc(&self) -> Global {
        *self.names.allocator()
    }

    /// What the name stands for, if it is in scope.
    pub fn meaning(&self, name: &[u8]) -> Option<&Meaning>
        ensures { option_map (λ m. meaning_view m.now) result ≡ meaning_in self.now name.now }
    {
        match search(&self.names, &self.sorted, name) {
            Ok(place) => Some(&self.names[place].1),
            Err(_) => None,
        }
    }

    /// The place of the name, or how many names there are if it isn't in scope.
    pub fn place(&self, name: &[u8]) -> usize
        ensures { result ≡ place_of self.now name.now }
    {
        match search(&self.names, &self.sorted, name) {
            Ok(place) => place,
            Err(_) => self.names.len(),
        }
    }

    pub fn len(&self) -> usize
        ensures { result ≡ length self.now }
    {
        self.names.len()
    }

    /// Takes in one name more.
    pub fn declare(&mut self, name: &[u8], meaning: Meaning) -> Result<(), NoMemory>
        requires { is_in_scope self.old name.now ≡ false }
        ensures { OnOk result (self.new ≡ self.old ++ entry name.now (meaning_view meaning) ∷ []) }
    {
        let Err(at) = search(&self.names, &self.sorted, name) else {
            unreachable!()
        };
        let name = name.to_vec(*self.names.allocator())?;
        self.names.reserve(1)?;
        self.sorted.insert(at, self.names.len())?;
        self.names.push_reserved((name, meaning));
        Ok(())
    }

    /// Lets all names go but the first so many.
    pub fn leave(&mut self, len: usize)
        ensures { self.new ≡ take len self.old }
    {
        self.sorted.retain(|place| *place < len);
        self.names.truncate(len);
    }
}
