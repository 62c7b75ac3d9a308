//! What a rank is between its ticks, and how that is spelled in bytes and read back.
#![tactic(auto)]

mod codes;
mod head;
mod heap;
mod image;
mod laws;
mod load;
mod memory;
mod messages;
mod middle;
mod order;
mod records;
mod request_list;
mod requests;
mod state;
mod tail;
mod trees;

pub use head::{Head, LineFormat};
pub use image::{Parts, Rest, take_image};
pub use laws::{images_are_one, tests_are_relations};
pub use load::{INTERVALS, Load, Window};
pub use messages::{
    Argument, Arguments, Context, LevelFormat, MessageFormat, TreeMessage, put_sent, take_sent,
};
pub use middle::{CommunicatorFormat, Middle, RankFormat};
pub use order::{Order, ascend_in};
pub use requests::{ByNumber, Request, RequestFormat, Requests};
pub use state::{ImageBytes, RankState, pack, unpack, unpack_image};
pub use tail::{ByTurn, HeldFormat, Tail};
pub use trees::ByPlace;
