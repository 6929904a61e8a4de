// The upload of a thermostat's readings, in three parts that are joined: the thermostat, the radio
// and the server.
#![tactic(auto)]

pub mod actions;
pub mod parts;
pub mod protocol;
pub mod retry;

pub use actions::{labels, on_air, on_arrival};
pub use parts::{radio, server, thermostat};
pub use protocol::write_protocol;
pub use retry::Retry;
