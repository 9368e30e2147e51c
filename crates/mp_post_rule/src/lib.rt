//! The rule of the posts: what agents sign and what waits for them, as one table that many threads share.
#![tactic(auto)]

mod kept;
mod posts;
mod rule;
mod view;

pub use kept::{Kept, Queue, Queues, Slot, Waiting};
pub use posts::{
    PostSeat, halt_party, join_seats, lift, look_at_lists, open_posts, posts_cross_threads,
    put_back, release_turn, sign_batch, sign_receipt, split_party, try_turn,
};
pub use rule::{Apart, Halt, Look, Posts, Receive, Release, Rule, Sign, Together, Try};
pub use view::{Found, Party, View};
