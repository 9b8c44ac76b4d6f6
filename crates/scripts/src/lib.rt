//! Scripts of steps over a blob in memory, with failing device calls and crashes: how they are read,
//! and what is written for them, one line a reply. The steps are those of a session, or those of
//! items of one size.
#![tactic(auto)]

mod explain;
mod item_line;
mod items_stage;
mod player;
mod script;
mod stage;
mod start;
mod stop;
mod text;
mod word;

pub use item_line::{ItemLine, parse_item_line};
pub use player::{play, play_on};
pub use script::{Line, parse_line};
pub use text::{Hex, Said, SaidItem};
pub use word::{ReadError, parse_hex, parse_number};
