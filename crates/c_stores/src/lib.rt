//! What initialisers store (C11, 6.7.9).
#![tactic(auto)]

mod dealing;
mod laws;
mod lists;
mod spots;
mod statics;
mod texts;
mod values;

pub use dealing::{
    Dealt, Placing, Plan, Taken, Target, Turn, is_open, list_plan, next_spot, over_rule, sized,
    taken_by,
};
pub use laws::objects_come_in_order;
pub use lists::{Initialised, initialise};
pub use spots::{Spot, Want, is_text_array, spot_for};
pub use statics::static_initial;
pub use texts::text_of;
