// One value of a state or a store is set, and the whole tested for soundness.
use crate::acts::Agent;
use soundness::is_state_sound;
use table::State;
use wire::read::cut;

fn byte_of(value: u32) -> u8 {
    u8::try_from(value).unwrap_or(255)
}

// From 2^31 on a value is counted down from 2^64, so that there are lengths whose sum overflows.
fn length_of(value: u32) -> usize {
    if value < 0x8000_0000 {
        return value as usize;
    }
    0xFFFF_FFFF_0000_0000 + value as usize
}

// Where there is no such place nothing is set.
fn set<T: Copy>(part: &mut [T], place: usize, value: T) {
    if place < part.len() {
        part[place] = value;
    }
}

// The parts are those that are asked for, 1 to 8, and behind the columns the passphrase's length and bytes, the clock, the next number.
fn damage(state: &mut State, part: u8, place: usize, value: u32) {
    let t = &mut state.columns;
    match part {
        1 => set(&mut t.numbers, place, value.into()),
        2 => set(&mut t.readings, place, value.into()),
        3 => set(&mut t.limited, place, byte_of(value)),
        4 => set(&mut t.seconds, place, value),
        5 => set(&mut t.confirm, place, byte_of(value)),
        6 => set(&mut t.blob_lens, place, length_of(value)),
        7 => set(&mut t.fields_lens, place, length_of(value)),
        9 => state.lock.len = length_of(value),
        10 => set(&mut state.lock.bytes, place, byte_of(value)),
        11 => state.clock.count = value.into(),
        12 => state.next = value.into(),
        _ => set(&mut t.comment_lens, place, length_of(value)),
    }
}

impl Agent {
    pub(crate) fn is_damaged_sound(&self, part: u8, place: usize, value: u32) -> bool {
        let mut state = self.state;
        damage(&mut state, part, place, value);
        is_state_sound(&state, &self.store)
    }

    // A byte of the store is set, and set back.
    pub(crate) fn is_store_sound(&mut self, place: usize, value: u32) -> bool {
        if self.store.len() <= place {
            return true;
        }
        let kept = self.store[place];
        self.store[place] = byte_of(value);
        let sound = self.is_sound();
        self.store[place] = kept;
        sound
    }

    // A store of zeros with another length, up to more bytes than a store has.
    pub(crate) fn is_length_sound(&self, length: usize) -> bool {
        let room = [0u8; 40960];
        is_state_sound(&self.state, cut(&room, 0, length))
    }
}
