//! Calls and their replies as lines of text. There is one line for each call of a seat and its
//! reply, whatever their bytes, and it reads back.
#![tactic(auto)]

mod call;
mod digits;
mod escaping;
mod kind;
pub mod laws;
mod line;
mod packet;
mod parts;
mod reading;
mod reply;

pub use call::call_line;
pub use digits::{HexFault, hex_text, packet_of};
pub use escaping::push_words;
pub use line::{Line, entry_line};
pub use reading::read_line;
pub use reply::{push_number, reply_line, reply_text};
