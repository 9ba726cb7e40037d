// Gaps in columns and store: closed where entries go, opened where one comes. Over lent columns and store; what asks for a change has tested soundness.
#![tactic(auto)]

pub mod closing;
pub mod opening;
