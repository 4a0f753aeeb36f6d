//! The script language: what a line says, and the text of what is answered. Nothing here reads,
//! writes or keeps anything.
#![tactic(auto)]

mod command;
mod parser;
mod payload;
mod print;
mod reply;

pub use command::{Key, Keyword, LineCause, ScriptCommand, ServiceCommand};
pub use parser::usual::{read_line, receive_line, send_copy_line};
pub use parser::{ParseError, parse};
pub use payload::{Payload, Text};
pub use print::{push_bad_line, push_reply};
pub use reply::{ScriptRefusal, ScriptReply, ServiceRefusal, ServiceReply};
