//! Devices over memory that give and take a few bytes a call and meet trouble, for tests.
#![tactic(auto)]

pub mod drip;
pub mod std_devices;
