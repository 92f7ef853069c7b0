//! What holds of a shop, whatever happens to its folders, its carrier and its askers.
#![tactic(auto)]

mod laws;
mod values;

pub use laws::{
    a_standby_takes_over, ids_are_given_once, may_is_computed, nothing_accepted_is_lost,
    sites_give_these_names, the_token_comes_back, what_is_told_is_true,
};
pub use values::{Answer, Carrier, Notice, ShopEvent, ShopPacket, ShopRequest};
