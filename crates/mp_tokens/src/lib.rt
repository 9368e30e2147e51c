//! The numbers that stand for private sets in messages.
#![tactic(auto)]

mod laws;
mod sets;
mod tokens;

pub use laws::{
    orders_grow_by_uses, orders_have_each_used_set_once, tokens_are_one_to_one,
    tokens_count_first_uses, tokens_stay,
};
pub use tokens::Tokens;
