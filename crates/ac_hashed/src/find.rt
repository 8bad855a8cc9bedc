//! A search by a hash.
ghost use Rattle.std.specs.Prelude.{◌≡◌};
ghost use Rattle.ac_setwork.specs.Indexed.{found_in};
ghost use Rattle.ac_hashed.specs.Ties.{AreTied};

use ac_base::{Hashed, Name};
use ac_buckets::Buckets;
use ac_chain::Chain;
use ac_setwork::Keys;

/// The name of the row that has the key.
pub(crate) fn find<S: Keys>(chain: &Chain<S::Row>, buckets: &Buckets, key: &S::Key) -> Option<Name>
where
    S::Key: Hashed,
    requires tied { AreTied (λ v. S.Key.wide_hash_of (S.key_of v)) (λ v w. S.Key.is_alike (S.key_of v) (S.key_of w)) chain.now buckets.now }
    ensures { result ≡ found_in (λ v. S.Key.is_alike (S.key_of v) key.now) chain.now.rows }
{
    let hash = key.wide_hash();
    let mut place = buckets.walk(hash);
    while let Some((name, next)) = buckets.step(hash, place) {
        if S::key(chain.at(name)).alike(key) {
            return Some(name);
        }
        place = next;
    }
    None
}
