ghost use Rattle.std.specs.Prelude.{◌≡◌};
ghost use Rattle.ac_base.specs.Hash.{hash_step, hash_of_bytes, widened};

fn stepped(hash: u32, byte: u8) -> u32
    ensures { result ≡ hash_step hash byte }
{
    ((hash as u64 * 31 + byte as u64) % (1 << 32)) as u32
}

#[tactic(auto, unfolding(crate::specs::Hash::hash_of_bytes))]
pub(crate) fn hash_bytes(bytes: &[u8]) -> u32
    ensures { result ≡ hash_of_bytes bytes.now }
{
    bytes.iter().fold(7, |hash, byte| stepped(hash, *byte))
}

/// By it the hashes of integers in a row become numbers in a row: 31 ^ 7 times it is 1 modulo 2 ^ 32.
const ROW_FACTOR: u64 = 1_454_739_231;

/// The hash times an odd number, and the low half of the value.
#[inline(always)]
pub(crate) fn widened(hash: u32, value: u64) -> u64
    ensures { result ≡ widened hash value }
{
    (value % (1 << 32)) * (1 << 32) + hash as u64 * ROW_FACTOR % (1 << 32)
}
