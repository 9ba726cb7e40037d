// The types that the rule and the code share. The rule itself stands in specs/.
#![tactic(auto)]

// A clock reading.
#[repr(C)]
#[derive(Clone, Copy)]
pub struct Millis {
    pub count: u64,
}

// The hash that a signature is asked for with.
#[derive(Clone, Copy)]
pub enum Hash {
    Plain,
    Sha256,
    Sha512,
}
