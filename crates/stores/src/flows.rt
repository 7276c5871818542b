// What leaves a store on a day, in micrometres.
#[derive(Clone, Copy, Debug, PartialEq, Eq)]
pub struct Flows {
    pub side: u32,
    pub vapour: u32,
    pub deep: u32,
}
