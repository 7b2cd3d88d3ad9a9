//! The words of a scenario.

ghost use Rattle.std.specs.Prelude.{◌≡◌};
ghost use Rattle.scen_words.specs.Words.{command_form, command_spelling, declaration_form, declaration_spelling, form, is_in_version, spelling, word_of, words};

use crate::kinds::{
    ACTORS, ANY, ANY_RING, BELOW_32, BYTES, CAPACITY, CLOCK, FEATURES, FILE, FILE_OR_NONE, FIRST,
    FLAGS, FLOW_AGE, FLOW_LIMIT, GUEST, HEADER, NAME, PEEKED, PROGRAM, PROGRAM_OR_NONE, RING, ROOM,
    SWITCH, VHOST,
};
use text_fields::{Form, Rest};

/// The first word of a declaration.
#[derive(Clone, Copy, Debug, PartialEq, Eq)]
pub enum DeclarationWord {
    /// `file F CAP` or `file F CAP FIRST`
    File,
    /// `region G ADDR LEN`
    Region,
    /// `vhost V G`
    Vhost,
    /// `prog P HEX`
    Prog,
    /// `flows NAME LIMIT AGE`, in version 2 alone
    Flows,
}

/// The first word of a command.
#[derive(Clone, Copy, Debug, PartialEq, Eq)]
pub enum CommandWord {
    /// `setiff F NAME HEX4`
    SetIff,
    /// `setqueue F HEX4`
    SetQueue,
    /// `close F`
    Close,
    /// `persist F B`
    Persist,
    /// `hdrsize F N`
    HdrSize,
    /// `steer F P` or `steer F -`
    Steer,
    /// `filter F P` or `filter F -`
    Filter,
    /// `tick MS`
    Tick,
    /// `resize F CAP`
    Resize,
    /// `send NAME HDR HEX`, HDR is `-` or HEX20
    Send,
    /// `read F ROOM`
    Read,
    /// `write F HEX`
    Write,
    /// `features V HEX16`
    Features,
    /// `vnum V R N`
    VNum,
    /// `vbase V R N`
    VBase,
    /// `vaddr V R DESC AVAIL USED`
    VAddr,
    /// `getbase V R`
    GetBase,
    /// `backend V R F` or `backend V R -`
    Backend,
    /// `rxturn V`
    RxTurn,
    /// `txturn V`
    TxTurn,
    /// `poke G ADDR HEX`
    Poke,
    /// `peek G ADDR LEN`
    Peek,
    /// `drive V R ADDR`
    Drive,
    /// `postin V R LEN LEN`, one or more lengths
    PostIn,
    /// `postout V R HEX`
    PostOut,
    /// `harvest V R`
    Harvest,
}

/// The first word of a line, or the one behind `@K`.
#[derive(Clone, Copy, Debug, PartialEq, Eq)]
pub enum Word {
    Declares(DeclarationWord),
    Orders(CommandWord),
    /// `phase N`
    Phase,
    /// `end`
    End,
}

// All words.
const WORDS: [Word; 33] = [
    Word::Declares(DeclarationWord::File),
    Word::Declares(DeclarationWord::Region),
    Word::Declares(DeclarationWord::Vhost),
    Word::Declares(DeclarationWord::Prog),
    Word::Declares(DeclarationWord::Flows),
    Word::Orders(CommandWord::SetIff),
    Word::Orders(CommandWord::SetQueue),
    Word::Orders(CommandWord::Close),
    Word::Orders(CommandWord::Persist),
    Word::Orders(CommandWord::HdrSize),
    Word::Orders(CommandWord::Steer),
    Word::Orders(CommandWord::Filter),
    Word::Orders(CommandWord::Tick),
    Word::Orders(CommandWord::Resize),
    Word::Orders(CommandWord::Send),
    Word::Orders(CommandWord::Read),
    Word::Orders(CommandWord::Write),
    Word::Orders(CommandWord::Features),
    Word::Orders(CommandWord::VNum),
    Word::Orders(CommandWord::VBase),
    Word::Orders(CommandWord::VAddr),
    Word::Orders(CommandWord::GetBase),
    Word::Orders(CommandWord::Backend),
    Word::Orders(CommandWord::RxTurn),
    Word::Orders(CommandWord::TxTurn),
    Word::Orders(CommandWord::Poke),
    Word::Orders(CommandWord::Peek),
    Word::Orders(CommandWord::Drive),
    Word::Orders(CommandWord::PostIn),
    Word::Orders(CommandWord::PostOut),
    Word::Orders(CommandWord::Harvest),
    Word::Phase,
    Word::End,
];

impl DeclarationWord {
    /// How it is written.
    pub fn spelling(self) -> &'static str
        ensures { result.now ≡ declaration_spelling self }
    {
        match self {
            DeclarationWord::File => "file",
            DeclarationWord::Region => "region",
            DeclarationWord::Vhost => "vhost",
            DeclarationWord::Prog => "prog",
            DeclarationWord::Flows => "flows",
        }
    }

    /// The fields behind it.
    pub fn form(self) -> Form
        ensures { result ≡ declaration_form self }
    {
        match self {
            DeclarationWord::File => Form::new(&[FILE, CAPACITY], Rest::Optional(FIRST)),
            DeclarationWord::Region => Form::new(&[GUEST, ANY, ANY], Rest::Nothing),
            DeclarationWord::Vhost => Form::new(&[VHOST, GUEST], Rest::Nothing),
            DeclarationWord::Prog => Form::new(&[PROGRAM, BYTES], Rest::Nothing),
            DeclarationWord::Flows => Form::new(&[NAME, FLOW_LIMIT, FLOW_AGE], Rest::Nothing),
        }
    }
}

impl CommandWord {
    /// How it is written.
    pub fn spelling(self) -> &'static str
        ensures { result.now ≡ command_spelling self }
    {
        match self {
            CommandWord::SetIff => "setiff",
            CommandWord::SetQueue => "setqueue",
            CommandWord::Close => "close",
            CommandWord::Persist => "persist",
            CommandWord::HdrSize => "hdrsize",
            CommandWord::Steer => "steer",
            CommandWord::Filter => "filter",
            CommandWord::Tick => "tick",
            CommandWord::Resize => "resize",
            CommandWord::Send => "send",
            CommandWord::Read => "read",
            CommandWord::Write => "write",
            CommandWord::Features => "features",
            CommandWord::VNum => "vnum",
            CommandWord::VBase => "vbase",
            CommandWord::VAddr => "vaddr",
            CommandWord::GetBase => "getbase",
            CommandWord::Backend => "backend",
            CommandWord::RxTurn => "rxturn",
            CommandWord::TxTurn => "txturn",
            CommandWord::Poke => "poke",
            CommandWord::Peek => "peek",
            CommandWord::Drive => "drive",
            CommandWord::PostIn => "postin",
            CommandWord::PostOut => "postout",
            CommandWord::Harvest => "harvest",
        }
    }

    /// The fields behind it.
    pub fn form(self) -> Form
        ensures { result ≡ command_form self }
    {
        match self {
            CommandWord::SetIff => Form::new(&[FILE, NAME, FLAGS], Rest::Nothing),
            CommandWord::SetQueue => Form::new(&[FILE, FLAGS], Rest::Nothing),
            CommandWord::Close => Form::new(&[FILE], Rest::Nothing),
            CommandWord::Persist => Form::new(&[FILE, SWITCH], Rest::Nothing),
            CommandWord::HdrSize => Form::new(&[FILE, BELOW_32], Rest::Nothing),
            CommandWord::Steer => Form::new(&[FILE, PROGRAM_OR_NONE], Rest::Nothing),
            CommandWord::Filter => Form::new(&[FILE, PROGRAM_OR_NONE], Rest::Nothing),
            CommandWord::Tick => Form::new(&[CLOCK], Rest::Nothing),
            CommandWord::Resize => Form::new(&[FILE, CAPACITY], Rest::Nothing),
            CommandWord::Send => Form::new(&[NAME, HEADER, BYTES], Rest::Nothing),
            CommandWord::Read => Form::new(&[FILE, ROOM], Rest::Nothing),
            CommandWord::Write => Form::new(&[FILE, BYTES], Rest::Nothing),
            CommandWord::Features => Form::new(&[VHOST, FEATURES], Rest::Nothing),
            CommandWord::VNum => Form::new(&[VHOST, ANY_RING, ANY], Rest::Nothing),
            CommandWord::VBase => Form::new(&[VHOST, ANY_RING, ANY], Rest::Nothing),
            CommandWord::VAddr => Form::new(&[VHOST, ANY_RING, ANY, ANY, ANY], Rest::Nothing),
            CommandWord::GetBase => Form::new(&[VHOST, ANY_RING], Rest::Nothing),
            CommandWord::Backend => Form::new(&[VHOST, ANY_RING, FILE_OR_NONE], Rest::Nothing),
            CommandWord::RxTurn => Form::new(&[VHOST], Rest::Nothing),
            CommandWord::TxTurn => Form::new(&[VHOST], Rest::Nothing),
            CommandWord::Poke => Form::new(&[GUEST, ANY, BYTES], Rest::Nothing),
            CommandWord::Peek => Form::new(&[GUEST, ANY, PEEKED], Rest::Nothing),
            CommandWord::Drive => Form::new(&[VHOST, RING, ANY], Rest::Nothing),
            CommandWord::PostIn => Form::new(&[VHOST, RING], Rest::Repeated(BELOW_32)),
            CommandWord::PostOut => Form::new(&[VHOST, RING, BYTES], Rest::Nothing),
            CommandWord::Harvest => Form::new(&[VHOST, RING], Rest::Nothing),
        }
    }
}

impl Word {
    // How it is written.
    fn spelling(self) -> &'static str
        ensures { result.now ≡ spelling self }
    {
        match self {
            Word::Declares(word) => word.spelling(),
            Word::Orders(word) => word.spelling(),
            Word::Phase => "phase",
            Word::End => "end",
        }
    }

    /// The fields behind it.
    pub fn form(self) -> Form
        ensures { result ≡ form self }
    {
        match self {
            Word::Declares(word) => word.form(),
            Word::Orders(word) => word.form(),
            Word::Phase => Form::new(&[ACTORS], Rest::Nothing),
            Word::End => Form::new(&[], Rest::Nothing),
        }
    }

    // Whether a scenario of this version has the word.
    fn is_in_version(self, version: u8) -> bool
        ensures { result ≡ is_in_version version self }
    {
        match self {
            Word::Declares(DeclarationWord::Flows) => version >= 2,
            _ => true,
        }
    }
}

// All words.
fn words() -> &'static [Word]
    ensures { result.now ≡ words }
{
    &WORDS
}

/// The word of this spelling in a scenario of this version.
#[tactic(auto, unfolding(crate::specs::Words::word_of))]
pub fn word_of(version: u8, field: &[u8]) -> Option<Word>
    ensures { result ≡ word_of version field.now }
{
    words().iter().copied().find(|word| word.is_in_version(version)
        && word.spelling().as_bytes() == field)
}
