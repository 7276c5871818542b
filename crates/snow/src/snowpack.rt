// Snow over another store.
use crate::pack::Pack;

#[derive(Clone, Copy, Debug, PartialEq, Eq)]
pub struct Snowpack<L> {
    pub pack: Pack,
    pub lower: L,
}
