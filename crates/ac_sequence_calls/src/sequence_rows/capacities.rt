//! The Capacity of vectors.
use super::SequenceRows;
use ac_base::Fault;
use ac_calls::WithCapacity;
use ac_chain::VectorLike;

impl<V: VectorLike> WithCapacity for SequenceRows<V> {
    type Row = V::Element;

    ghost rows = { λ rows. V.seen rows.sequence };

    fn capacity(&self) -> i64 {
        self.sequence.capacity()
    }

    fn reserve_capacity(&mut self, n: i64) -> Result<(), Fault> {
        self.sequence.reserve_capacity(n)
    }
}
