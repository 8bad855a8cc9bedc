/// A key and what is kept under it.
#[derive(Drop)]
pub struct Entry<K, V> {
    pub key: K,
    pub value: V,
}
