// The statuses of the file controls and what a control answers.
#![tactic(auto)]

ghost use Rattle.std.specs.Prelude.{◌≡◌};
ghost use Rattle.status.specs.Number.{number};
ghost use Rattle.status.specs.Reply.{told};

// [MS-ERREF]'s STATUS_ names, each with its number there.
#[derive(Clone, Copy, Debug, PartialEq, Eq)]
pub enum Status {
    Success = 0,
    BufferOverflow = 0x8000_0005,
    InvalidParameter = 0xC000_000D,
    InvalidDeviceRequest = 0xC000_0010,
    EndOfFile = 0xC000_0011,
    BufferTooSmall = 0xC000_0023,
    ObjectPathNotFound = 0xC000_003A,
    UnknownRevision = 0xC000_0058,
    DiskFull = 0xC000_007F,
    NotSupported = 0xC000_00BB,
    FileCorruptError = 0xC000_0102,
    NameTooLong = 0xC000_0106,
    NotAReparsePoint = 0xC000_0275,
    IoReparseTagInvalid = 0xC000_0276,
    IoReparseTagMismatch = 0xC000_0277,
    IoReparseDataInvalid = 0xC000_0278,
    VolumeNotUpgraded = 0xC000_029C,
    ReparseAttributeConflict = 0xC000_02B2,
    JournalDeleteInProgress = 0xC000_02B7,
    JournalNotActive = 0xC000_02B8,
    JournalEntryDeleted = 0xC000_02CF,
}

impl From<Status> for u32 {
    ghost from_gives = { λ s n. n ≡ number s };

    fn from(s: Status) -> u32 {
        s as u32
    }
}

// What a control answers: its status and how many bytes of the output it wrote. A warning has both, so that a `Result` does not hold
// every answer.
#[derive(Clone, Copy, Debug, PartialEq, Eq)]
pub struct Answer {
    pub status: Status,
    pub count: usize,
}

// The answer of a call that wrote so many bytes, or is refused: then none.
impl From<Result<usize, Status>> for Answer {
    ghost from_gives = { λ r a. a ≡ told r };

    fn from(r: Result<usize, Status>) -> Answer {
        match r {
            Ok(count) => Answer {
                status: Status::Success,
                count,
            },
            Err(status) => Answer { status, count: 0 },
        }
    }
}
