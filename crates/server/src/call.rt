// Derived from keys/agent/server.rs of russh 0.65.0 (Apache-2.0), and changed: see NOTICE.
// What a call decides before the request's function: the row of its first byte, and the length of a signature that is lent.
ghost use Rattle.std.specs.Prelude.{◌≡◌};
ghost use Rattle.rule.specs.Calls.{lent_length};
ghost use Rattle.requests.specs.Outcomes.{signature_of};
ghost use Rattle.server.specs.Rows.{gated_row, row_of, row_in};

use requests::{Said, Signed};
use wire::msg;

// What a request comes to by its first byte, the lock and the gate's answer.
#[derive(Clone, Copy)]
pub enum Row {
    Fails,
    Asks(u8),
    List,
    Add(bool),
    Remove,
    RemoveAll,
    Sign,
    Lock,
    Unlock,
}

// A row whose lock state fits goes by the gate's answer; its class is 01's number, as an outcome has it.
fn gated(row: Row, class: u8, fit: bool, gate: Said) -> Row
    ensures { result ≡ gated_row row class fit gate }
{
    if !fit {
        return Row::Fails;
    }
    match gate {
        Said::Missing => Row::Asks(class),
        Said::No => Row::Fails,
        Said::Yes => row,
    }
}

// The table by first byte.
#[tactic(auto, unfolding(crate::specs::Rows::row_of))]
fn row_of(first: u8, locked: bool, gate: Said) -> Row
    ensures { result ≡ row_of first locked gate }
{
    match first {
        msg::REQUEST_IDENTITIES => gated(Row::List, 1, !locked, gate),
        msg::ADD_IDENTITY => gated(Row::Add(false), 2, !locked, gate),
        msg::ADD_ID_CONSTRAINED => gated(Row::Add(true), 2, !locked, gate),
        msg::REMOVE_IDENTITY => gated(Row::Remove, 3, !locked, gate),
        msg::REMOVE_ALL_IDENTITIES => gated(Row::RemoveAll, 4, !locked, gate),
        msg::SIGN_REQUEST => gated(Row::Sign, 5, !locked, gate),
        msg::LOCK => gated(Row::Lock, 6, !locked, gate),
        msg::UNLOCK => gated(Row::Unlock, 7, locked, gate),
        _ => Row::Fails,
    }
}

// The row of a payload; an empty one fails.
#[tactic(auto, unfolding(crate::specs::Rows::row_in))]
pub fn row_in(payload: &[u8], locked: bool, gate: Said) -> Row
    ensures { result ≡ row_in payload.now locked gate }
{
    if payload.len() == 0 {
        return Row::Fails;
    }
    let first = payload[0];
    row_of(first, locked, gate)
}

// The length of a signature that is lent; "none given" has none.
pub fn lent_length(given: Signed, bytes: &[u8]) -> usize
    ensures { result ≡ lent_length (signature_of given bytes.now) }
{
    match given {
        Signed::Missing | Signed::Nothing { number: _ } => 0,
        Signed::Given { number: _ } => bytes.len(),
    }
}
