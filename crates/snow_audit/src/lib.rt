//! The audit of a run: whether the lines that a run wrote are those of the model.
#![tactic(auto)]

mod auditing;
mod auditor;
mod following;
mod law;
mod sheet;

pub use auditing::{AuditEnd, audit};
pub use law::audit_law;
