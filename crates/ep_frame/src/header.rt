//! The header of a frame.

ghost use Rattle.std.specs.Prelude.{◌≡◌, ◌≤◌, ◌<◌, ◌^◌, [], ◌∷◌, length};
ghost use Rattle.ep_base.specs.Ops.{second_fits};
ghost use Rattle.ep_base.specs.Versions.{version_of};
ghost use Rattle.ep_frame.specs.Fields.{header_at, header_len, number_at, second_len_from, generation_from, body_len_from};
ghost use Rattle.ep_frame.specs.Faults.{checked, names_rows, ballot_rows, vote_rows, body_rows, late_rows, has_attributes, has_command, counter_allowed, replica_allowed, status_allowed, other_counter_allowed, other_replica_allowed, seq_allowed, highest_op, op_allowed, op_of, key_len_allowed, text_len_allowed, generation_allowed, body_len_allowed, count_allowed, version_in, header_fault_in, header_fault, second_place, body_place, deps_place, frame_len};

use crate::fault::FrameFault;
use crate::numbers::{u8_at, u16_at, u32_at, u64_at};
use ep_base::{Op, Version, VersionKind};

/// The fields of a frame's first 40 bytes, in version 3 of its first 48, in their order. All numbers stand with their highest byte first.
#[derive(Clone, Copy, Debug, PartialEq, Eq)]
pub struct Header {
    /// The bytes `EP`, 0x4550.
    pub magic: u16,
    /// The version, 1 to 3.
    pub version: u8,
    /// The kind of message, 1 to 8.
    pub kind: u8,
    /// The sender, 0 to 6.
    pub from: u8,
    /// The receiver, 0 to 6, another than the sender.
    pub to: u8,
    /// The place among the frames that the entry sends.
    pub out: u16,
    /// The entry's place in the sender's journal, 1 or more.
    pub entry: u32,
    /// The entry's stamp, 1 to 2^48 - 1.
    pub stamp: u64,
    /// The instance's leader, 0 to 6.
    pub leader: u8,
    /// The instance's number, 1 to 1,000 in version 1, to 2,000 in version 2, to 9,000 in version 3.
    pub number: u16,
    /// The counter of the ballot that is led, answered or refused, 0 to 60,000; 0 in a commit.
    pub counter: u16,
    /// The leader of that ballot, 0 to 6; 0 in a commit.
    pub replica: u8,
    /// How far the vote of an answer to a Prepare goes, 0 (no vote) to 3; else 0.
    pub status: u8,
    /// The counter of the ballot voted at, or promised, 0 to 60,000; 0 in a message that names neither.
    pub other_counter: u16,
    /// The leader of that ballot, 0 to 6; 0 in a message that names none.
    pub other_replica: u8,
    /// The sequence number, 1 to 1,000,000; 0 in a message without attributes.
    pub seq: u32,
    /// The command: 1 no-op, 2 get, 3 put, 4 del; from version 2 on also 5 swap; in version 3 also 6 compare-and-set, 7 ask,
    /// 8 act, 9 seal, 10 tx; 0 in a message without a command.
    pub op: u8,
    /// How many bytes the key, of two the first one, has, 1 to 255; 0 without a key.
    pub key_len: u8,
    /// How many bytes the second key has: a swap's 1 to 255, of an ask or act 0 to 255; else 0.
    pub second_len: u16,
    /// How many dependencies there are, 0 to 7,000 in version 1, to 14,000 in version 2, to 63,000 in version 3.
    pub count: u16,
    /// The generation, 1 or more; 0 in versions 1 and 2, which have none.
    pub generation: u32,
    /// How many bytes the body has: of a put, an ask, an act or a seal 0 to 65,535, in versions 1 and 2 to 1,024; of a
    /// compare-and-set 2 to 131,080, of a tx 5 to 131,080; else 0.
    pub body_len: u32,
}

fn check(allowed: bool, fault: FrameFault) -> Result<(), FrameFault>
    ensures { result ≡ checked ((fault, allowed) ∷ []) }
{
    if allowed { Ok(()) } else { Err(fault) }
}

/// The op of this number: 1 to 10 in the order of the ops. Where there is no command, and the number is 0, it is the no-op.
pub(crate) fn made_op(number: u8) -> Op
    ensures { result ≡ op_of number }
{
    match number {
        2 => Op::Get,
        3 => Op::Put,
        4 => Op::Del,
        5 => Op::Swap,
        6 => Op::Cas,
        7 => Op::Ask,
        8 => Op::Act,
        9 => Op::Seal,
        10 => Op::Tx,
        _ => Op::Noop,
    }
}

// The last command of the version.
fn highest_op(version: Version) -> u8
    ensures { result ≡ highest_op version }
{
    match version.kind() {
        VersionKind::V1 => 4,
        VersionKind::V2 => 5,
        VersionKind::V3(_) => 10,
    }
}

/// How many bytes the header of this version's number has.
pub(crate) fn header_len(version: u8) -> usize
    ensures value { result ≡ header_len version }
    ensures small { result ≤ 48 }
    ensures long { 40 ≤ result }
{
    if version == 3 { 48 } else { 40 }
}

/// The length of the second key.
pub(crate) fn second_len_at(bytes: &[u8]) -> u16
    requires { 40 ≤ length bytes.now }
    ensures { result ≡ second_len_from (number_at 2 1 bytes.now) (number_at 34 1 bytes.now) (number_at 36 2 bytes.now) }
{
    if u8_at(bytes, 2) != 3 && u8_at(bytes, 34) == 3 {
        0
    } else {
        u16_at(bytes, 36)
    }
}

/// The generation; 0 in versions 1 and 2.
pub(crate) fn generation_at(bytes: &[u8]) -> u32
    requires { header_len (number_at 2 1 bytes.now) ≤ length bytes.now }
    ensures { result ≡ generation_from (number_at 2 1 bytes.now) (number_at 40 4 bytes.now) }
{
    if u8_at(bytes, 2) == 3 {
        u32_at(bytes, 40)
    } else {
        0
    }
}

/// The length of the body.
pub(crate) fn body_len_at(bytes: &[u8]) -> u32
    requires { header_len (number_at 2 1 bytes.now) ≤ length bytes.now }
    ensures { result ≡ body_len_from (number_at 2 1 bytes.now) (number_at 34 1 bytes.now) (number_at 36 2 bytes.now) (number_at 44 4 bytes.now) }
{
    if u8_at(bytes, 2) == 3 {
        u32_at(bytes, 44)
    } else if u8_at(bytes, 34) == 3 {
        u16_at(bytes, 36) as u32
    } else {
        0
    }
}

impl Header {
    pub(crate) fn parse(bytes: &[u8]) -> Header
        requires { header_len (number_at 2 1 bytes.now) ≤ length bytes.now }
        ensures { result ≡ header_at bytes.now }
    {
        Header {
            magic: u16_at(bytes, 0),
            version: u8_at(bytes, 2),
            kind: u8_at(bytes, 3),
            from: u8_at(bytes, 4),
            to: u8_at(bytes, 5),
            out: u16_at(bytes, 6),
            entry: u32_at(bytes, 8),
            stamp: u64_at(bytes, 12),
            leader: u8_at(bytes, 20),
            number: u16_at(bytes, 21),
            counter: u16_at(bytes, 23),
            replica: u8_at(bytes, 25),
            status: u8_at(bytes, 26),
            other_counter: u16_at(bytes, 27),
            other_replica: u8_at(bytes, 29),
            seq: u32_at(bytes, 30),
            op: u8_at(bytes, 34),
            key_len: u8_at(bytes, 35),
            second_len: second_len_at(bytes),
            count: u16_at(bytes, 38),
            generation: generation_at(bytes),
            body_len: body_len_at(bytes),
        }
    }

    /// The version that the frame is of.
    pub fn version(&self) -> Version
        requires { self.now.version ≡ 3 → 1 ≤ self.now.generation }
        ensures { result ≡ version_in self.now }
    {
        Version::from_valid(self.version, self.generation)
    }

    // A version with the limits of the frame's: those of version 3 are the same in all generations.
    pub(crate) fn limits(&self) -> Version
        ensures { result ≡ version_of self.now.version 1 }
    {
        Version::from_valid(self.version, 1)
    }

    /// Whether the message carries attributes: a pre-accept, its answer, an accept, a commit, or an answer to a Prepare with a vote.
    pub fn has_attributes(&self) -> bool
        ensures { result ≡ has_attributes self.now }
    {
        matches!(self.kind, 1 | 2 | 3 | 5) || (self.kind == 7 && self.status != 0)
    }

    /// Whether the message carries a command: a pre-accept, an accept, a commit, or an answer to a Prepare with a vote.
    pub fn has_command(&self) -> bool
        ensures { result ≡ has_command self.now }
    {
        matches!(self.kind, 1 | 3 | 5) || (self.kind == 7 && self.status != 0)
    }

    fn check_names(&self) -> Result<(), FrameFault>
        ensures { result ≡ checked (names_rows self.now) }
    {
        check(self.magic == 0x4550, FrameFault::Magic)?;
        check(self.version >= 1 && self.version <= 3, FrameFault::Version)?;
        check(self.kind >= 1 && self.kind <= 8, FrameFault::Kind)?;
        check(self.from <= 6, FrameFault::Field(4))?;
        check(self.to <= 6 && self.to != self.from, FrameFault::Field(5))?;
        check(self.entry >= 1, FrameFault::Field(8))?;
        check(
            self.stamp >= 1 && self.stamp <= 281_474_976_710_655,
            FrameFault::Field(12),
        )
    }

    fn counter_allowed(&self) -> bool
        ensures { result ≡ counter_allowed self.now }
    {
        match self.kind {
            5 => self.counter == 0,
            6 | 7 => self.counter >= 1 && self.counter <= 60_000,
            _ => self.counter <= 60_000,
        }
    }

    fn replica_allowed(&self) -> bool
        ensures { result ≡ replica_allowed self.now }
    {
        match self.kind {
            5 => self.replica == 0,
            _ if self.counter == 0 => self.replica == self.leader,
            _ => self.replica <= 6,
        }
    }

    fn check_ballot(&self, version: Version) -> Result<(), FrameFault>
        ensures { result ≡ checked (ballot_rows version self.now) }
    {
        check(self.leader <= 6, FrameFault::Field(20))?;
        check(
            self.number >= 1 && self.number <= version.highest_number(),
            FrameFault::Field(21),
        )?;
        check(self.counter_allowed(), FrameFault::Field(23))?;
        check(self.replica_allowed(), FrameFault::Field(25))
    }

    fn status_allowed(&self) -> bool
        ensures { result ≡ status_allowed self.now }
    {
        if self.kind == 7 {
            self.status <= 3
        } else {
            self.status == 0
        }
    }

    fn other_counter_allowed(&self) -> bool
        ensures { result ≡ other_counter_allowed self.now }
    {
        match self.kind {
            7 if self.status == 0 => self.other_counter == 0,
            7 => self.other_counter <= 60_000,
            8 => self.other_counter >= 1 && self.other_counter <= 60_000,
            _ => self.other_counter == 0,
        }
    }

    fn other_replica_allowed(&self) -> bool
        ensures { result ≡ other_replica_allowed self.now }
    {
        match self.kind {
            7 if self.other_counter == 0 => self.other_replica == self.leader,
            7 | 8 => self.other_replica <= 6,
            _ => self.other_replica == 0,
        }
    }

    fn check_vote(&self) -> Result<(), FrameFault>
        ensures { result ≡ checked (vote_rows self.now) }
    {
        check(self.status_allowed(), FrameFault::Field(26))?;
        check(self.other_counter_allowed(), FrameFault::Field(27))?;
        check(self.other_replica_allowed(), FrameFault::Field(29))
    }

    fn seq_allowed(&self) -> bool
        ensures { result ≡ seq_allowed self.now }
    {
        if self.has_attributes() {
            self.seq >= 1 && self.seq <= 1_000_000
        } else {
            self.seq == 0
        }
    }

    fn op_allowed(&self, version: Version) -> bool
        ensures { result ≡ op_allowed version self.now }
    {
        if self.has_command() {
            self.op >= 1 && self.op <= highest_op(version)
        } else {
            self.op == 0
        }
    }

    fn key_len_allowed(&self) -> bool
        ensures { result ≡ key_len_allowed self.now }
    {
        made_op(self.op).first_fits(self.key_len as usize)
    }

    fn second_len_allowed(&self) -> bool
        ensures { result ≡ second_fits (op_of self.now.op) self.now.second_len }
    {
        made_op(self.op).second_fits(self.second_len as usize)
    }

    fn text_len_allowed(&self, version: Version) -> bool
        ensures { result ≡ text_len_allowed version self.now }
    {
        match version.kind() {
            VersionKind::V1 | VersionKind::V2 => self.second_len_allowed() && self.body_len <= 1024,
            VersionKind::V3(_) => self.second_len_allowed(),
        }
    }

    fn generation_allowed(&self, version: Version) -> bool
        ensures { result ≡ generation_allowed version self.now }
    {
        match version.kind() {
            VersionKind::V1 | VersionKind::V2 => self.generation == 0,
            VersionKind::V3(_) => self.generation >= 1,
        }
    }

    fn body_len_allowed(&self) -> bool
        ensures { result ≡ body_len_allowed self.now }
    {
        made_op(self.op).body_fits(self.body_len as usize)
    }

    fn count_allowed(&self, version: Version) -> bool
        ensures { result ≡ count_allowed version self.now }
    {
        if self.has_attributes() {
            self.count <= version.most_deps()
        } else {
            self.count == 0
        }
    }

    fn check_body(&self, version: Version) -> Result<(), FrameFault>
        ensures { result ≡ checked (body_rows version self.now) }
    {
        check(self.seq_allowed(), FrameFault::Field(30))?;
        check(self.op_allowed(version), FrameFault::Field(34))?;
        check(self.key_len_allowed(), FrameFault::Field(35))?;
        check(self.text_len_allowed(version), FrameFault::Field(36))?;
        check(self.count_allowed(version), FrameFault::Field(38))
    }

    fn check_late(&self, version: Version) -> Result<(), FrameFault>
        ensures { result ≡ checked (late_rows version self.now) }
    {
        check(self.generation_allowed(version), FrameFault::Field(40))?;
        check(self.body_len_allowed(), FrameFault::Field(44))
    }

    #[tactic(auto, unfolding(crate::specs::Faults::header_fault_in))]
    fn check_in(&self, version: Version) -> Result<(), FrameFault>
        ensures { result ≡ header_fault_in version self.now }
    {
        self.check_names()?;
        self.check_ballot(version)?;
        self.check_vote()?;
        self.check_body(version)?;
        self.check_late(version)
    }

    /// The first field that isn't allowed.
    #[tactic(auto, using(crate::proofs::Limits::same_faults))]
    pub(crate) fn check(&self) -> Result<(), FrameFault>
        ensures { result ≡ header_fault self.now }
    {
        self.check_in(self.limits())
    }

    /// Where the second key begins.
    pub(crate) fn second_place(&self) -> usize
        ensures value { result ≡ second_place self.now }
        ensures small { result < 2 ^ 9 }
    {
        header_len(self.version) + self.key_len as usize
    }

    /// Where the body begins.
    pub(crate) fn body_place(&self) -> usize
        ensures value { result ≡ body_place self.now }
        ensures small { result < 2 ^ 17 }
    {
        self.second_place() + self.second_len as usize
    }

    /// Where the dependencies begin.
    pub(crate) fn deps_place(&self) -> usize
        ensures value { result ≡ deps_place self.now }
        ensures small { result < 2 ^ 33 }
    {
        self.body_place() + self.body_len as usize
    }

    /// How many bytes the frame has.
    pub(crate) fn len(&self) -> usize
        ensures { result ≡ frame_len self.now }
    {
        self.deps_place() + 3 * self.count as usize
    }
}
