//! Whether a text is TOML 1.0, and else where it stops being TOML and what it was to have there. Keys that are defined twice are
//! no fault of the grammar. Why a text is not laid out: it is not TOML, or its brackets are too deep in one another.
//!
//! And which words, strings and comments are those of TOML 1.0. Nothing is read into values, so numbers have any size. For these
//! no memory is taken, and the time is proportional to the text.
#![tactic(auto)]

mod bytes;
mod comment;
mod date;
mod expected;
mod fault;
mod gap;
mod key;
mod laws;
mod nesting;
mod next;
mod number;
mod opened;
mod reading;
mod refusal;
mod stop;
mod string;
mod turn;
mod value;
mod word_stop;

pub use comment::is_comment;
pub use date::{is_date, is_time};
pub use expected::Expected;
pub use fault::{Fault, fault_of};
pub use key::key_word;
pub use laws::{law_closed, law_closed_strings, law_unseen};
pub use nesting::MAX_DEPTH;
pub use next::{Bracket, Next, Owner};
pub use refusal::{Refusal, refusal_of};
pub use stop::Found;
pub use string::{is_key_string, is_string};
pub use turn::LexemeTurn;
pub use value::is_value;
pub use word_stop::{StringDue, StringStop, comment_stop, string_stop};
