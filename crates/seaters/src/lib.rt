// Seaters: they seat a list of stays, or say that they do not take it, or that there is nothing they
// could grant.
//
// A reader has to believe what a seater means and what it answers (specs/Meanings), and what each
// seater here takes, grants and gives (specs/ListOrders, specs/Layers). Everything above a seater
// rests on the rules that all of them keep, and on nothing else about it.

#![tactic(auto)]

mod depot;
mod errors;
mod list_order;
mod margin;
mod piles;
mod seaters;

pub use depot::Depot;
pub use errors::NotSeated;
pub use list_order::ListOrder;
pub use margin::Margin;
pub use piles::seat_between_depots;
pub use seaters::Seater;
