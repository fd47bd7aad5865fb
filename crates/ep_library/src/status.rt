//! What a status says. Those below 16 are the numbers of the faults' names (docs/FORMATS.md, section 7).

/// The call did what it was to do.
pub(crate) const DONE: u8 = 0;
/// There is no memory: the same call may succeed later.
pub(crate) const MEMORY: u8 = 1;
/// A number or a length is out of its range.
pub(crate) const OUT_OF_RANGE: u8 = 3;
/// The replica's numbers of this generation are used up: propose at another one, or propose a seal.
pub(crate) const SPACE_FULL: u8 = 4;
/// The numbers that order commands are used up.
pub(crate) const SEQ_EXHAUSTED: u8 = 5;
/// The replica doesn't lead the instance, or doesn't any more.
pub(crate) const NOT_LEADING: u8 = 6;
/// Fewer than a slow quorum has answered: wait on, and send the proposal's frames again.
pub(crate) const TOO_FEW_ANSWERS: u8 = 7;
/// The instance is committed: execute it.
pub(crate) const ALREADY_COMMITTED: u8 = 8;
/// The instance was recovered too often.
pub(crate) const BALLOTS_EXHAUSTED: u8 = 9;
/// It waits for an instance that isn't committed here.
pub(crate) const NOT_COMMITTED: u8 = 10;
/// A journal of the bundle isn't what a replica leaves.
pub(crate) const NOT_A_RUN: u8 = 11;
/// The bytes are no bundle.
pub(crate) const BAD_BUNDLE: u8 = 12;
/// The frame is for another replica.
pub(crate) const NOT_MINE: u8 = 13;
/// The bytes are no frame of this version and generation.
pub(crate) const BAD_FRAME: u8 = 14;
/// The seen stamp is too far ahead, or the replica's stamps are used up.
pub(crate) const STAMP_FULL: u8 = 15;
/// No generation is in the folder.
pub(crate) const NO_GENERATION: u8 = 16;
/// The replica is new, and generation `at` is in its folder.
pub(crate) const HAS_GENERATION: u8 = 17;
/// The replica has begun the log of generation `at`, whose opening isn't in its folder: it mustn't act in any up to it.
pub(crate) const LEFT: u8 = 18;
/// The opening is of a generation before `at`, which is in the folder.
pub(crate) const OLDER: u8 = 19;
/// Generation `at` has another opening in the folder.
pub(crate) const OTHER_FILE: u8 = 20;
/// Of this generation the folder has neither an opening nor a reference that can be read, and a later one rests on it.
pub(crate) const BROKEN: u8 = 21;
/// There is no replica: none was opened, it was freed, or another thread is in a call with it, which has to be kept out.
pub(crate) const NO_REPLICA: u8 = 32;
/// There is a replica already.
pub(crate) const HAS_REPLICA: u8 = 33;
/// The whole log is lent, and isn't on the disk yet, so nothing is taken: write it, and say so by ep_synced.
pub(crate) const LENT: u8 = 34;
/// Not all that was taken is on the disk, so nothing is reported: ep_ready lends it. Or, of ep_prepare, not all of it is lent.
pub(crate) const UNSYNCED: u8 = 35;
/// Nothing is lent.
pub(crate) const NOT_LENT: u8 = 36;
/// So many bytes aren't all that are lent.
pub(crate) const NOT_ALL: u8 = 37;
/// There is none: no value, no such instance, nothing that was cut off.
pub(crate) const NONE: u8 = 38;
/// The buffer is too short; how many bytes it needs is reported.
pub(crate) const TOO_SHORT: u8 = 39;
/// The bytes aren't one request: its length is out of range, or isn't that of the bytes.
pub(crate) const NOT_ONE: u8 = 40;
/// The audit refuses the bundle; its report says why.
pub(crate) const REFUSED: u8 = 41;
/// No seal was executed.
pub(crate) const NOT_SEALED: u8 = 42;
/// There is no generation after it.
pub(crate) const LAST_GENERATION: u8 = 43;
/// Nothing was begun that says when to wait no longer, it was freed, or another thread is in a call with it.
pub(crate) const NO_PATIENCE: u8 = 44;
/// It was begun already.
pub(crate) const HAS_PATIENCE: u8 = 45;
/// What ep_prepare made before wasn't reported: ep_told lends it.
pub(crate) const UNTOLD: u8 = 46;
/// There is no file that is given in pieces: none was begun, it was freed, or another thread is in a call with it.
pub(crate) const NO_CHECKPOINT: u8 = 30;
/// There is such a file already: free it before.
pub(crate) const HAS_CHECKPOINT: u8 = 31;
/// The log has no bytes, and the replica isn't new.
pub(crate) const NO_LOG: u8 = 48;
/// The log has bytes, and the replica is new.
pub(crate) const LOG_EXISTS: u8 = 49;
/// The log is of another replica or cluster.
pub(crate) const OTHER_LOG: u8 = 50;
/// The bytes begin as no log does.
pub(crate) const NO_HEADER: u8 = 51;
/// The log is of another version.
pub(crate) const OTHER_VERSION: u8 = 52;
/// The log was begun with another opening.
pub(crate) const OTHER_GENERATION: u8 = 53;
/// The length of the log's record at byte `at` is wrong.
pub(crate) const BAD_LENGTH: u8 = 54;
/// The checksum of the log's record at byte `at` is wrong.
pub(crate) const BAD_CHECKSUM: u8 = 55;
/// The entry of the log's record at byte `at` is wrong.
pub(crate) const BAD_ENTRY: u8 = 56;
/// The entry of the log's record at byte `at` isn't the next one.
pub(crate) const NOT_NEXT: u8 = 57;
/// The log's record at byte `at` was changed: it was on the disk, by the record at byte `by`.
pub(crate) const TURNED: u8 = 58;
/// The log's entry of number `at` has a stamp that no clock gave it.
pub(crate) const NOT_CLOCKED: u8 = 59;
/// The opening has `at` bytes, fewer than the shortest.
pub(crate) const OPENING_SHORT: u8 = 60;
/// The opening's digest, which begins at byte `at`, isn't that of the bytes before it.
pub(crate) const OPENING_DAMAGED: u8 = 61;
/// The opening's field at byte `at` is wrong.
pub(crate) const OPENING_WRONG: u8 = 62;
/// The opening is of a cluster of `at` replicas.
pub(crate) const OTHER_OPENING: u8 = 63;
