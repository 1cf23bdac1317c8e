//! Directives and operations from short tables, for tests.
#![tactic(auto)]

mod directive;
mod form;
mod operation;
mod queues;

pub use directive::directive_of;
pub use form::{EXIT, FINALIZE, Form, UPDATE, UPDATE_IF_PRESENT, over};
pub use operation::{Operation, operation_of, performed_by};
pub use queues::{counts_of, queue, sync};
