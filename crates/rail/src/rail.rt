// A rail: its number, and its places in a slice that is lent to it.
use places::place::Place;

#[derive(Drop)]
pub struct Rail<'a, K> {
    pub(crate) number: u32,
    pub(crate) places: &'a mut [Place<K>],
}
