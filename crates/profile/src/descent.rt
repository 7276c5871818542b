// What comes down to a layer: seepage and the demand left, with what the layers above it gave sideways and to the air.
#[derive(Clone, Copy, Debug, PartialEq, Eq)]
pub struct Descent {
    pub seepage: u32,
    pub demand: u32,
    pub side: u32,
    pub vapour: u32,
}
