//! The words of lines, steps and answers, each with its spelling.

use trace_causes::Word;

/// The word of a step behind which a vhost and a ring stand, and no more.
#[derive(Clone, Copy)]
pub enum PlainWord {
    None,
    Crowded,
    Off,
    Stopped,
    Num,
    Base,
    Addr,
    GetBase,
    Drive,
    Post,
    Harvest,
}

/// The first word of a line.
#[derive(Clone, Copy)]
pub enum HeadWord {
    Begins,
    Phase,
    Op,
    Answer,
    Resize,
    Got,
    Refused,
    File,
    Place,
    Guest,
    Step,
    Ring,
    Base,
    Used,
    End,
}

static HEAD_WORDS: [HeadWord; 15] = [
    HeadWord::Begins,
    HeadWord::Phase,
    HeadWord::Op,
    HeadWord::Answer,
    HeadWord::Resize,
    HeadWord::Got,
    HeadWord::Refused,
    HeadWord::File,
    HeadWord::Place,
    HeadWord::Guest,
    HeadWord::Step,
    HeadWord::Ring,
    HeadWord::Base,
    HeadWord::Used,
    HeadWord::End,
];

impl Word for HeadWord {
    ghost use Rattle.trace_words.specs.Words.{head_spelling, head_words};

    ghost spelling = { head_spelling };

    ghost words = { head_words };

    fn spelling(self) -> &'static str {
        match self {
            HeadWord::Begins => "taptrace",
            HeadWord::Phase => "phase",
            HeadWord::Op => "op",
            HeadWord::Answer => "ans",
            HeadWord::Resize => "resize",
            HeadWord::Got => "got",
            HeadWord::Refused => "refused",
            HeadWord::File => "file",
            HeadWord::Place => "line",
            HeadWord::Guest => "guest",
            HeadWord::Step => "step",
            HeadWord::Ring => "ring",
            HeadWord::Base => "base",
            HeadWord::Used => "used",
            HeadWord::End => "end",
        }
    }

    fn words() -> &'static [HeadWord] {
        &HEAD_WORDS
    }
}

/// The word of a step.
#[derive(Clone, Copy)]
pub enum KindWord {
    Fetch,
    Halt,
    Copy,
    Publish,
    Notices,
    Backend,
    Features,
    Poke,
    Peek,
    Plain(PlainWord),
}

static KIND_WORDS: [KindWord; 20] = [
    KindWord::Fetch,
    KindWord::Halt,
    KindWord::Copy,
    KindWord::Publish,
    KindWord::Notices,
    KindWord::Backend,
    KindWord::Features,
    KindWord::Poke,
    KindWord::Peek,
    KindWord::Plain(PlainWord::None),
    KindWord::Plain(PlainWord::Crowded),
    KindWord::Plain(PlainWord::Off),
    KindWord::Plain(PlainWord::Stopped),
    KindWord::Plain(PlainWord::Num),
    KindWord::Plain(PlainWord::Base),
    KindWord::Plain(PlainWord::Addr),
    KindWord::Plain(PlainWord::GetBase),
    KindWord::Plain(PlainWord::Drive),
    KindWord::Plain(PlainWord::Post),
    KindWord::Plain(PlainWord::Harvest),
];

impl Word for KindWord {
    ghost use Rattle.trace_words.specs.Words.{kind_spelling, kind_words};

    ghost spelling = { kind_spelling };

    ghost words = { kind_words };

    fn spelling(self) -> &'static str {
        match self {
            KindWord::Fetch => "fetch",
            KindWord::Halt => "halt",
            KindWord::Copy => "copy",
            KindWord::Publish => "publish",
            KindWord::Notices => "notices",
            KindWord::Backend => "backend",
            KindWord::Features => "features",
            KindWord::Poke => "poke",
            KindWord::Peek => "peek",
            KindWord::Plain(PlainWord::None) => "none",
            KindWord::Plain(PlainWord::Crowded) => "crowded",
            KindWord::Plain(PlainWord::Off) => "off",
            KindWord::Plain(PlainWord::Stopped) => "stopped",
            KindWord::Plain(PlainWord::Num) => "num",
            KindWord::Plain(PlainWord::Base) => "base",
            KindWord::Plain(PlainWord::Addr) => "addr",
            KindWord::Plain(PlainWord::GetBase) => "getbase",
            KindWord::Plain(PlainWord::Drive) => "drive",
            KindWord::Plain(PlainWord::Post) => "post",
            KindWord::Plain(PlainWord::Harvest) => "harvest",
        }
    }

    fn words() -> &'static [KindWord] {
        &KIND_WORDS
    }
}

/// The first word of an answer.
#[derive(Clone, Copy)]
pub enum AnswerWord {
    Done,
    Host,
    Base,
    Peeked,
    Posted,
    Harvested,
    NoDriver,
    Fault,
    Turn,
    Bad,
    Placed,
    Dropped,
    Read,
    Refused,
    Vhost,
    Drive,
}

static ANSWER_WORDS: [AnswerWord; 16] = [
    AnswerWord::Done,
    AnswerWord::Host,
    AnswerWord::Base,
    AnswerWord::Peeked,
    AnswerWord::Posted,
    AnswerWord::Harvested,
    AnswerWord::NoDriver,
    AnswerWord::Fault,
    AnswerWord::Turn,
    AnswerWord::Bad,
    AnswerWord::Placed,
    AnswerWord::Dropped,
    AnswerWord::Read,
    AnswerWord::Refused,
    AnswerWord::Vhost,
    AnswerWord::Drive,
];

impl Word for AnswerWord {
    ghost use Rattle.trace_words.specs.Words.{answer_spelling, answer_words};

    ghost spelling = { answer_spelling };

    ghost words = { answer_words };

    fn spelling(self) -> &'static str {
        match self {
            AnswerWord::Done => "ok",
            AnswerWord::Host => "host",
            AnswerWord::Base => "base",
            AnswerWord::Peeked => "bytes",
            AnswerWord::Posted => "posted",
            AnswerWord::Harvested => "harvest",
            AnswerWord::NoDriver => "nodriver",
            AnswerWord::Fault => "fault",
            AnswerWord::Turn => "turn",
            AnswerWord::Bad => "bad",
            AnswerWord::Placed => "placed",
            AnswerWord::Dropped => "drop",
            AnswerWord::Read => "read",
            AnswerWord::Refused => "err",
            AnswerWord::Vhost => "verr",
            AnswerWord::Drive => "derr",
        }
    }

    fn words() -> &'static [AnswerWord] {
        &ANSWER_WORDS
    }
}
