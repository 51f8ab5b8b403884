//! The verdict of a policy on a member.

/// What a policy says of a member, and the number of the rule that decides. The number 0 says that no rule matches the member.
#[derive(Clone, Copy, Debug, PartialEq, Eq)]
pub enum Verdict {
    Allowed { rule: u32 },
    Denied { rule: u32 },
}
