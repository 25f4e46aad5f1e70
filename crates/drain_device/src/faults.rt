//! Devices over memory whose faults follow a script, for the tests of every crate that reads or writes.
//!
//! They give or take few bytes at a call, and answer a fault at the calls that the script names, so that a test can
//! make each call of a run fail in turn. Their contracts know their bytes, and they count their faults as any device
//! does.

pub mod script;
pub mod script_sink;
pub mod script_source;

pub use script::{Scripted, SinkAnswer};
pub use script_sink::ScriptSink;
pub use script_source::ScriptSource;
