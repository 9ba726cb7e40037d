// Derived from keys/agent/mod.rs of russh 0.65.0 (Apache-2.0), and changed: see NOTICE.
// The wire: what the other crates read and write a message with.
#![tactic(auto)]

pub mod frame;
pub mod limits;
pub mod msg;
pub mod read;
pub mod refusal;
pub mod utf8;
pub mod write;

// A lifetime, as the messages count it.
#[repr(C)]
#[derive(Clone, Copy)]
pub struct Seconds {
    pub count: u32,
}

// What a key may be added under.
#[derive(Clone, Copy)]
pub enum Constraint {
    KeyLifetime { seconds: Seconds },
    Confirm,
}
