// Hashes of what the tables hold.
use checker_node::mixed;

/// The hash of a list of numbers.
pub fn list_hash(numbers: &[u32]) -> u32 {
    let mut hash = 0;
    for number in numbers {
        hash = mixed(hash, u64::from(*number));
    }
    folded(hash)
}

/// The hash of two numbers.
pub(crate) fn pair_hash(one: u32, two: u32) -> u32 {
    folded(u64::from(one) * 4_294_967_296 + u64::from(two))
}

/// A hash of half as many bits.
pub(crate) fn folded(hash: u64) -> u32 {
    (mixed(hash, 0) & 0xffff_ffff) as u32
}
