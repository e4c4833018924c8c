// The numbers that the rules document fixes: refusals, limits with room for what they allow, and answers.
#![tactic(auto)]

pub mod limits;
pub mod refusals;
pub mod rooms;

use crate::refusals::Refused;

// What every call answers: a count, or why it refuses.
pub type Answer = Result<u32, Refused>;
