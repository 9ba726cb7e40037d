// Derived from keys/agent/server.rs of russh 0.65.0 (Apache-2.0), and changed: see NOTICE.
// The list reply (11): the live entries in list order, each blob with its comment. What it requires, the call has tested.
ghost use Rattle.std.specs.Prelude.{◌≡◌, ◌+◌, ◌≤◌, length};
ghost use Rattle.wire.specs.Limits.{blob_limit, comment_limit, reply_room, item_room, items_room};
ghost use Rattle.wire.specs.Write.{write};
ghost use Rattle.rule.specs.Rule.{items, listed, listing};
ghost use Rattle.rule.specs.Calls as rule;
ghost use Rattle.rule.specs.Calls.{lent, follow};
ghost use Rattle.table.specs.declared.State.{State};
ghost use Rattle.table.specs.Entries.{shown};
ghost use Rattle.table.specs.Meaning.{gateway_of};
ghost use Rattle.table.specs.Soundness.{Sound};
ghost use Rattle.table.specs.Shown.{SoundOf, PartsOf};
ghost use Rattle.requests.specs.Lists.{item_in};
ghost use Rattle.requests.specs.Ends.{Ends};

use crate::Outcome;
use table::{Shown, entries};
use wire::msg;
use wire::write::{put_byte, put_number, put_string};

// An item: the blob of n bytes at `from` as a string, and the comment of c bytes behind m bytes of fields.
fn put_item(
    store: &[u8],
    from: usize,
    n: usize,
    m: usize,
    c: usize,
    reply: &mut [u8],
    at: usize,
) -> usize
    requires { (from + (n + (m + c)) ≤ length store.now) × (n ≤ blob_limit) × (c ≤ comment_limit) × (at + item_room ≤ length reply.old) }
    ensures { (result ≡ at + length (item_in store.now from n m c)) × (reply.new ≡ write reply.old at (item_in store.now from n m c)) }
{
    let fields = from + n;
    let comment = fields + m;
    let end = comment + c;
    let behind = put_string(reply, at, &store[from..fields]);
    put_string(reply, behind, &store[comment..end])
}

// All items, in list order.
fn put_items(t: Shown<'_>, store: &[u8], reply: &mut [u8], at: usize) -> usize
    requires { SoundOf (PartsOf (shown t)) store.now × (at + items_room ≤ length reply.old) }
    ensures { (result ≤ at + items_room) × ((s : State) → PartsOf (shown t.entry) s → Sound s store.now → (result ≡ at + length (items (gateway_of s store.now).entries)) × (reply.new ≡ write reply.old at (items (gateway_of s store.now).entries))) }
{
    let count = entries::count(t.numbers);
    let mut place = at;
    let mut from = 0;
    for i in 0..count {
        place = put_item(
            store,
            from,
            t.blob_lens[i],
            t.fields_lens[i],
            t.comment_lens[i],
            reply,
            place,
        );
        from += t.blob_lens[i] + (t.fields_lens[i] + t.comment_lens[i]);
    }
    place
}

// The whole reply; its length.
fn put_list(t: Shown<'_>, store: &[u8], reply: &mut [u8]) -> usize
    requires { SoundOf (PartsOf (shown t)) store.now × (reply_room ≤ length reply.old) }
    ensures { (s : State) → PartsOf (shown t.entry) s → Sound s store.now → (result ≡ length (listed (gateway_of s store.now).entries)) × (reply.new ≡ write reply.old 0 (listed (gateway_of s store.now).entries)) }
{
    let end = put_items(t, store, reply, 9);
    let count = entries::count(t.numbers);
    let kind = put_number(reply, 0, (end - 4) as u32);
    let at = put_byte(reply, kind, msg::IDENTITIES_ANSWER);
    put_number(reply, at, count as u32);
    end
}

// 11
pub fn request_identities(t: Shown<'_>, store: &[u8], reply: &mut [u8]) -> Outcome
    requires { SoundOf (PartsOf (shown t)) store.now × (reply_room ≤ length reply.old) }
    ensures { (s : State) → PartsOf (shown t.entry) s → Sound s store.now → (a : rule.Answers) → Ends reply.old (record { outcome = result; state = s }) store.now reply.new (follow (lent a) (gateway_of s store.now) (listing (gateway_of s store.now))) }
{
    let len = put_list(t, store, reply);
    Outcome::Reply { len }
}
