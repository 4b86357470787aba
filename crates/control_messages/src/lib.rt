//! Control messages: what masters, members of a generation and an operator's `status` tell each other beside the
//! chain's own messages, as bytes. Nothing uses this crate yet: a message is to be the content of one further kind of
//! frame between servers, which has its length.
//!
//! A message is an order of a master (`successions::Order`), what a member reports (`successions::Report`), a marker
//! (`seals::Marker`), the question how a server is, or what a server says of itself (`chain_status::ServerReport`). It
//! is spelled as a list of numbers, each of eight bytes with the highest first; the first number is its kind.
//! docs/FORMATS.md, "Control messages", has the numbers of each.
//!
//! `encode` writes a message, and refuses only if memory is out. `decode` reads all of some bytes, allocates nothing,
//! and says `None` if they are no message: another kind, phase or flag, a number that is too large for its type, a
//! number or a byte that is missing or left over.
//!
//! **What is proved** (`specs/Spellings.antt` says what a message's numbers and bytes are, and `Spells` that bytes are
//! those of a message that there can be):
//!
//! - What `encode` writes is the spelling of its message.
//! - What `decode` reads is spelled by the bytes, and whatever the bytes spell is read. So what was written is read,
//!   and bytes that are refused spell no message.
//! - No bytes spell two messages (`one_message`), and no message has two spellings (`one_spelling`).
//!
//! **What is only tested**: that memory suffices, and the bytes of docs/FORMATS.md, which another program made.
//!
//! **What isn't**: whether a message is true, comes from whom it should, or makes sense. A Seal without any process, a
//! report of the number 0 and a server's id above 15 are messages; whoever takes one judges it. A message may be the
//! beginning of a longer one, so its length has to come with it.
#![tactic(auto)]

mod laws;
mod messages;
mod order_readers;
mod readers;
mod report_readers;
mod server_readers;
mod spelling;
#[cfg(test)]
mod tests;
mod widths;

pub use laws::{one_message, one_spelling};
pub use messages::ControlMessage;
pub use readers::decode;
pub use spelling::encode;
