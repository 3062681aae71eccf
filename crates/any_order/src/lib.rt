// The seater that seats a list of at most 12 stays in any order.
//
// A reader has to believe what it takes and grants, and what it means that a list can fit
// (specs/AnyOrders). It seats a list exactly if it can fit.

#![tactic(auto)]

mod any_order;

pub use any_order::AnyOrder;
