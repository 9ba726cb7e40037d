// 01's numbers, under the names of specs/Limits.antt, which has their sentences.

pub const PAYLOAD_LIMIT: usize = 262144;

pub const ENTRIES_LIMIT: usize = 24;

pub const STORE_SIZE: usize = 32768;

pub const BLOB_LIMIT: usize = 1024;

pub const FIELDS_LIMIT: usize = 3072;

pub const COMMENT_LIMIT: usize = 255;

pub const PASSPHRASE_LIMIT: usize = 1024;

pub const SIGNATURE_LIMIT: usize = 2048;

pub const REPLY_ROOM: usize = 30897;

pub const LAST_NUMBER: u64 = 0xffff_ffff_ffff_ffff;
