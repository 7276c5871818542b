// The values that come with a refusal's number.
#[derive(Clone, Copy, Debug, PartialEq, Eq)]
pub enum Values {
    One(u64),
    Two(u64, u64),
    Four(u64, u64, u64, u64),
}
