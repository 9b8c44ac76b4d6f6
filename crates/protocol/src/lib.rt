//! A paged blob served over a reader and a writer of bytes: requests are read, taken as steps of a
//! session, and answered, in frames that `docs/PROTOCOL.md` describes.
#![tactic(auto)]

mod answer;
mod cause;
mod input;
mod opening;
mod output;
mod refusal;
mod request;
mod server;
mod setting;
mod stop;
mod taking;
mod together;
mod version;

pub use cause::Cause;
pub use server::{serve, serve_file};
pub use setting::Setting;
pub use stop::{Flaw, Stop};
pub use version::Version;
