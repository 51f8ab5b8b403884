//! What is given to a member.
use group_model::MemberName;

/// A push of this number that is given to the member at this place: the first that was used has the place 0.
#[derive(Clone, Copy, PartialEq, Eq)]
pub struct Delivery {
    pub place: usize,
    pub member: MemberName,
    pub number: u32,
}
