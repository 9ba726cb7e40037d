// A state with its store, and what is done with them. `judge` has tested that they are sound.
ghost use Rattle.std.specs.Prelude.{◌≡◌, ℕ, ◌<◌, true, Some};
ghost use Rattle.wire.specs.Limits.{entries_limit};
ghost use Rattle.rule.specs.Rule.{brought};
ghost use Rattle.table.specs.Soundness.{Sound};
ghost use Rattle.table.specs.Changes.{MayPut};

use keys::addition::Carried;
use rule::Millis;
use soundness::is_state_sound;
use table::locks::keep_passphrase;
use table::{State, fresh};
use wire::limits;
use wire::read::cut;

#[derive(Drop)]
pub struct Agent {
    pub state: State,
    pub store: [u8; limits::STORE_SIZE],
}

impl Agent {
    pub(crate) fn fresh() -> Agent {
        Agent {
            state: fresh(),
            store: [0; limits::STORE_SIZE],
        }
    }

    pub(crate) fn is_sound(&self) -> bool
        ensures { result ≡ true → Sound self.now.state self.now.store }
    {
        is_state_sound(&self.state, &self.store)
    }

    pub(crate) fn advance(&mut self, reading: u32)
        requires { Sound self.old.state self.old.store }
    {
        let kept = self.state.kept();
        let reading = Millis {
            count: reading.into(),
        };
        let after = changes::advance(&mut self.state.columns, kept, &mut self.store, reading);
        self.state.keep(after);
    }

    // The place for a key, if its lengths are within the limits.
    pub(crate) fn place_of(&self, payload: &[u8], carried: Carried, blob: &[u8]) -> Option<usize>
        requires { Sound self.now.state self.now.store }
        ensures { (i : ℕ) → result ≡ Some i → MayPut self.now.state self.now.store i (brought payload.now carried blob.now) }
    {
        let fields = cut(payload, 1, carried.places.end);
        let comment = cut(payload, carried.comment.from, carried.comment.to);
        if blob.len() < 1
            || limits::BLOB_LIMIT < blob.len()
            || fields.len() < 1
            || limits::FIELDS_LIMIT < fields.len()
            || limits::COMMENT_LIMIT < comment.len()
            || limits::LAST_NUMBER <= self.state.next
        {
            return None;
        }
        let size = blob.len() + (fields.len() + comment.len());
        self.state.columns.place_for(&self.store, blob, size)
    }

    pub(crate) fn put(&mut self, payload: &[u8], carried: Carried, blob: &[u8], i: usize)
        requires { MayPut self.old.state self.old.store i (brought payload.now carried blob.now) }
    {
        let kept = self.state.kept();
        let after = changes::put(
            &mut self.state.columns,
            kept,
            &mut self.store,
            i,
            payload,
            carried,
            blob,
        );
        self.state.keep(after);
    }

    pub(crate) fn remove(&mut self, i: usize)
        requires { (i < entries_limit) × Sound self.old.state self.old.store }
    {
        changes::remove(&mut self.state.columns, &mut self.store, i);
    }

    pub(crate) fn remove_all(&mut self)
        requires { Sound self.old.state self.old.store }
    {
        changes::remove_all(&mut self.state.columns, &mut self.store);
    }

    // A passphrase over the limit changes nothing.
    pub(crate) fn lock(&mut self, passphrase: &[u8]) {
        if passphrase.len() <= limits::PASSPHRASE_LIMIT {
            let lock = &mut self.state.lock;
            lock.len = keep_passphrase(&mut lock.bytes, passphrase);
        }
    }
}
