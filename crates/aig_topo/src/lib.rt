//! The order of a circuit's gates, and cycles among them.
//!
//! Others call `gate_order`, which makes the least ready order of the gates; `Order`, which it is;
//! `GateIndex` and `GateNeeds`, by which a caller sees first which variables gates define and what
//! they need, with `order_by_needs`; and `search_for_cycle`, which finds a cycle without an order.
//! `Steps` counts the steps of them all.
//!
//! The definition that matters most is `IsLeastReadyOrder`.
#![tactic(auto)]

mod cycle;
mod index;
mod least_ready;
mod lists;
mod operands;
mod order;
mod resolved;
mod steps;

pub use crate::cycle::search_for_cycle;
pub use crate::index::GateIndex;
pub use crate::least_ready::{gate_order, order_by_needs};
pub use crate::lists::GateNeeds;
pub use crate::operands::Needs;
pub use crate::order::Order;
pub use crate::resolved::Resolved;
pub use crate::steps::Steps;
