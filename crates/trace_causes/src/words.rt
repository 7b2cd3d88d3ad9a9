//! The words of causes, fates, ends of turns and operations, each with its spelling.

ghost use Rattle.std.specs.Prelude.{◌≡◌};
ghost use Rattle.trace_causes.specs.Words.{table_word};

use crate::table::Word;
use scen_words::CommandWord;

/// The word behind `err`.
#[derive(Clone, Copy)]
pub enum ErrWord {
    EEXIST,
    EINVAL,
    EBUSY,
    E2BIG,
    EBADFD,
    ENOTSUP,
    ENFILE,
    EAGAIN,
}

static ERR_WORDS: [ErrWord; 8] = [
    ErrWord::EEXIST,
    ErrWord::EINVAL,
    ErrWord::EBUSY,
    ErrWord::E2BIG,
    ErrWord::EBADFD,
    ErrWord::ENOTSUP,
    ErrWord::ENFILE,
    ErrWord::EAGAIN,
];

impl Word for ErrWord {
    ghost use Rattle.trace_causes.specs.Words.{err_spelling, err_words};

    ghost spelling = { err_spelling };

    ghost words = { err_words };

    fn spelling(self) -> &'static str {
        match self {
            ErrWord::EEXIST => "EEXIST",
            ErrWord::EINVAL => "EINVAL",
            ErrWord::EBUSY => "EBUSY",
            ErrWord::E2BIG => "E2BIG",
            ErrWord::EBADFD => "EBADFD",
            ErrWord::ENOTSUP => "ENOTSUP",
            ErrWord::ENFILE => "ENFILE",
            ErrWord::EAGAIN => "EAGAIN",
        }
    }

    fn words() -> &'static [ErrWord] {
        &ERR_WORDS
    }
}

/// The word behind `verr`.
#[derive(Clone, Copy)]
pub enum VhostWord {
    EINVAL,
    EBUSY,
    EFAULT,
    ENOBUFS,
    EHDR,
    ENOTSUP,
}

static VHOST_WORDS: [VhostWord; 6] = [
    VhostWord::EINVAL,
    VhostWord::EBUSY,
    VhostWord::EFAULT,
    VhostWord::ENOBUFS,
    VhostWord::EHDR,
    VhostWord::ENOTSUP,
];

impl Word for VhostWord {
    ghost use Rattle.trace_causes.specs.Words.{vhost_spelling, vhost_words};

    ghost spelling = { vhost_spelling };

    ghost words = { vhost_words };

    fn spelling(self) -> &'static str {
        match self {
            VhostWord::EINVAL => "EINVAL",
            VhostWord::EBUSY => "EBUSY",
            VhostWord::EFAULT => "EFAULT",
            VhostWord::ENOBUFS => "ENOBUFS",
            VhostWord::EHDR => "EHDR",
            VhostWord::ENOTSUP => "ENOTSUP",
        }
    }

    fn words() -> &'static [VhostWord] {
        &VHOST_WORDS
    }
}

/// The word behind `derr`.
#[derive(Clone, Copy)]
pub enum DriveWord {
    Unaligned,
    Outside,
    TooLong,
    Full,
    Stray,
}

static DRIVE_WORDS: [DriveWord; 5] = [
    DriveWord::Unaligned,
    DriveWord::Outside,
    DriveWord::TooLong,
    DriveWord::Full,
    DriveWord::Stray,
];

impl Word for DriveWord {
    ghost use Rattle.trace_causes.specs.Words.{drive_spelling, drive_words};

    ghost spelling = { drive_spelling };

    ghost words = { drive_words };

    fn spelling(self) -> &'static str {
        match self {
            DriveWord::Unaligned => "Unaligned",
            DriveWord::Outside => "Outside",
            DriveWord::TooLong => "TooLong",
            DriveWord::Full => "Full",
            DriveWord::Stray => "Stray",
        }
    }

    fn words() -> &'static [DriveWord] {
        &DRIVE_WORDS
    }
}

/// The word behind `drop`.
#[derive(Clone, Copy)]
pub enum DropWord {
    NoQueue,
    Filtered,
    Gone,
    Full,
    Spent,
}

static DROP_WORDS: [DropWord; 5] = [
    DropWord::NoQueue,
    DropWord::Filtered,
    DropWord::Gone,
    DropWord::Full,
    DropWord::Spent,
];

impl Word for DropWord {
    ghost use Rattle.trace_causes.specs.Words.{drop_spelling, drop_words};

    ghost spelling = { drop_spelling };

    ghost words = { drop_words };

    fn spelling(self) -> &'static str {
        match self {
            DropWord::NoQueue => "NoQueue",
            DropWord::Filtered => "Filtered",
            DropWord::Gone => "Gone",
            DropWord::Full => "Full",
            DropWord::Spent => "Spent",
        }
    }

    fn words() -> &'static [DropWord] {
        &DROP_WORDS
    }
}

/// What became of a frame that had a place.
#[derive(Clone, Copy)]
pub enum FateWord {
    Waiting,
    Read,
    Guest,
    Purged,
    Overrun,
    Cut,
}

static FATE_WORDS: [FateWord; 6] = [
    FateWord::Waiting,
    FateWord::Read,
    FateWord::Guest,
    FateWord::Purged,
    FateWord::Overrun,
    FateWord::Cut,
];

impl Word for FateWord {
    ghost use Rattle.trace_causes.specs.Words.{fate_spelling, fate_words};

    ghost spelling = { fate_spelling };

    ghost words = { fate_words };

    fn spelling(self) -> &'static str {
        match self {
            FateWord::Waiting => "waiting",
            FateWord::Read => "read",
            FateWord::Guest => "guest",
            FateWord::Purged => "purged",
            FateWord::Overrun => "overrun",
            FateWord::Cut => "cut",
        }
    }

    fn words() -> &'static [FateWord] {
        &FATE_WORDS
    }
}

/// How a turn ended.
#[derive(Clone, Copy)]
pub enum EndWord {
    Idle,
    Short,
    Again,
    Stopped,
    Off,
}

static END_WORDS: [EndWord; 5] = [
    EndWord::Idle,
    EndWord::Short,
    EndWord::Again,
    EndWord::Stopped,
    EndWord::Off,
];

impl Word for EndWord {
    ghost use Rattle.trace_causes.specs.Words.{end_spelling, end_words};

    ghost spelling = { end_spelling };

    ghost words = { end_words };

    fn spelling(self) -> &'static str {
        match self {
            EndWord::Idle => "idle",
            EndWord::Short => "short",
            EndWord::Again => "again",
            EndWord::Stopped => "stopped",
            EndWord::Off => "off",
        }
    }

    fn words() -> &'static [EndWord] {
        &END_WORDS
    }
}

/// The word of an operation that is a command's own words, but for an attachment.
#[derive(Clone, Copy)]
pub enum TableWord {
    SetQueue,
    Close,
    Persist,
    HdrSize,
    Steer,
    Filter,
    Tick,
    Resize,
}

/// The word of a scenario.
pub fn table_word(word: TableWord) -> CommandWord
    ensures { result ≡ table_word word }
{
    match word {
        TableWord::SetQueue => CommandWord::SetQueue,
        TableWord::Close => CommandWord::Close,
        TableWord::Persist => CommandWord::Persist,
        TableWord::HdrSize => CommandWord::HdrSize,
        TableWord::Steer => CommandWord::Steer,
        TableWord::Filter => CommandWord::Filter,
        TableWord::Tick => CommandWord::Tick,
        TableWord::Resize => CommandWord::Resize,
    }
}

/// The word of an operation.
#[derive(Clone, Copy)]
pub enum OpWord {
    SetIff,
    Learn,
    Back,
    Words(TableWord),
}

static OP_WORDS: [OpWord; 11] = [
    OpWord::SetIff,
    OpWord::Learn,
    OpWord::Back,
    OpWord::Words(TableWord::SetQueue),
    OpWord::Words(TableWord::Close),
    OpWord::Words(TableWord::Persist),
    OpWord::Words(TableWord::HdrSize),
    OpWord::Words(TableWord::Steer),
    OpWord::Words(TableWord::Filter),
    OpWord::Words(TableWord::Tick),
    OpWord::Words(TableWord::Resize),
];

impl Word for OpWord {
    ghost use Rattle.trace_causes.specs.Words.{op_spelling, op_words};

    ghost spelling = { op_spelling };

    ghost words = { op_words };

    fn spelling(self) -> &'static str {
        match self {
            OpWord::SetIff => "setiff",
            OpWord::Learn => "learn",
            OpWord::Back => "back",
            OpWord::Words(word) => table_word(word).spelling(),
        }
    }

    fn words() -> &'static [OpWord] {
        &OP_WORDS
    }
}
