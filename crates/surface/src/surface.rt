// A surface over another store.
use crate::retention::Retention;

#[derive(Clone, Copy, Debug, PartialEq, Eq)]
pub struct Surface<L> {
    pub retention: Retention,
    pub lower: L,
}
