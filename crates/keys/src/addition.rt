// Derived from keys/agent/server.rs of russh 0.65.0 (Apache-2.0), and changed: see NOTICE.
// An add request behind its first byte: key fields, comment, and constraints where it has them.
ghost use Rattle.std.specs.Prelude.{◌≡◌};
ghost use Rattle.keys.specs.Additions.{limits_of, commented_at, addition_at};

use crate::constraints::{Walk, constraints};
use crate::kinds::{Places, key_at};
use wire::Seconds;
use wire::read::{Cursor, Fault, Span};

// What an add request carries: where its key fields and its comment lie, its lifetime and Confirm.
#[derive(Clone, Copy)]
pub struct Carried {
    pub places: Places,
    pub comment: Span,
    pub lifetime: Option<Seconds>,
    pub confirm: bool,
}

// What the constraints say, or their fault.
fn limited(places: Places, comment: Span, walk: Walk) -> Result<Carried, Fault>
    ensures { result ≡ limits_of places comment walk }
{
    match walk {
        Walk::Done { lifetime, confirm } => Ok(Carried {
            places,
            comment,
            lifetime,
            confirm,
        }),
        Walk::Duplicate(at) | Walk::Unknown(at) | Walk::Cut(at) => Err(Fault { at }),
    }
}

// Behind the key fields: the comment, which must be UTF-8, and the constraints.
fn commented(s: &[u8], places: Places, constrained: bool) -> Result<Carried, Fault>
    ensures { result ≡ commented_at s.now places constrained }
{
    let start = Cursor { at: places.end };
    let text = start.text(s)?;
    let comment = Span::from(text);
    let walk = if constrained {
        constraints(s, text.next.at)
    } else {
        Walk::Done {
            lifetime: None,
            confirm: false,
        }
    };
    limited(places, comment, walk)
}

pub fn addition_at(s: &[u8], at: usize, constrained: bool) -> Result<Carried, Fault>
    ensures { result ≡ addition_at s.now at constrained }
{
    let places = key_at(s, at)?;
    commented(s, places, constrained)
}
