//! Reading the words.

ghost use Rattle.clap.specs.Words.{app_of, kind_of};
ghost use Rattle.std.specs.Prelude.{◌≡◌, ◌↔◌, IfOk, IsTrue, None, [], map, string_bytes, option_map, unwrap_or};
ghost use Rattle.tap_words.specs.Words.{alone, asked_by, asks, says_true, seed_of, tapsim, with_number};
ghost use Rattle.tap_words.specs.Parse.{IsGiven};

use crate::Request;
use clap::error::ErrorKind;
use clap::{Arg, ArgAction, ArgMatches, Command, Error};
use std::alloc::{AllocError, Global};
use text_fields::number_of;

/// The greatest number of sends that can be generated.
const MOST: u64 = 100_000;

// The seed: 0 where none is given.
fn seed_of(seed: Option<&str>) -> Option<u64>
    ensures { result ≡ seed_of (option_map (λ s. s.now) seed.entry) }
{
    match seed {
        None => Some(0),
        Some(text) => number_of(text.as_bytes()),
    }
}

// A command word by itself, with its options.
fn alone(word: &str, seed: Option<&str>, json: bool) -> Option<Request>
    ensures { result ≡ alone word.now (option_map (λ s. s.now) seed.entry) json }
{
    let bare = seed.is_none() & !json;
    if word == "check" {
        bare.then_some(Request::Check)
    } else if word == "plain" {
        let seed = seed_of(seed)?;
        Some(Request::Plain { seed, json })
    } else if word == "live" {
        seed.is_none().then_some(Request::Live { json })
    } else if word == "audit" {
        bare.then_some(Request::Audit)
    } else if word == "upgrade" {
        bare.then_some(Request::Upgrade)
    } else {
        None
    }
}

// A command word with a number.
fn with_number(word: &str, number: &str, seed: Option<&str>, json: bool) -> Option<Request>
    ensures { result ≡ with_number word.now number.now (option_map (λ s. s.now) seed.entry) json }
{
    if word != "gen" || seed.is_some() || json {
        return None;
    }
    match number_of(number.as_bytes()) {
        Some(count) if 1 <= count && count <= MOST => Some(Request::Gen {
            count: count as u32,
        }),
        _ => None,
    }
}

// The texts, or none.
fn texts_of<'a, 'b>(texts: Option<&'b [&'a str]>) -> &'b [&'a str]
    ensures { map (λ t. t.now) result.now ≡ unwrap_or (option_map (λ s. map (λ t. t.now) s.now) texts.entry) [] }
{
    match texts {
        Some(texts) => texts,
        None => &[],
    }
}

// Whether the text says true.
fn says_true(text: Option<&str>) -> bool
    ensures { result ≡ says_true (option_map (λ t. t.now) text.entry) }
{
    match text {
        Some(text) => text == "true",
        None => false,
    }
}

// What these words and options ask for.
#[tactic(auto, unfolding(crate::specs::Words::asked_by))]
fn asked_by(plain: &[&str], seed: Option<&str>, json: bool) -> Option<Request>
    ensures { result ≡ asked_by (map (λ s. s.now) plain.now) (option_map (λ s. s.now) seed.entry) json }
{
    match plain {
        [word] => alone(word, seed, json),
        [word, number] => with_number(word, number, seed, json),
        _ => None,
    }
}

// The command line: plain words, `--seed N` and `--json`.
fn command_line<'a>(alloc: Global) -> Result<Command<'a>, AllocError>
    ensures { IfOk result (λ command. app_of command ≡ tapsim) }
{
    let plain = Arg::new(alloc, "words").action(ArgAction::Append);
    let seed = Arg::new(alloc, "seed").long("seed").action(ArgAction::Set);
    let json = Arg::new(alloc, "json")
        .long("json")
        .action(ArgAction::SetTrue);
    let bare = Command::new(alloc, "tapsim")
        .no_binary_name(true)
        .disable_help_flag(true)
        .disable_version_flag(true);
    bare.arg(plain)?.arg(seed)?.arg(json)
}

fn is_memory(error: &Error) -> bool
    ensures { IsTrue result ↔ (kind_of error.now ≡ ErrorKind.OutOfMemory) }
{
    matches!(error.kind(), ErrorKind::OutOfMemory)
}

// What an error of the parse says: want of memory, or else that the words give nothing.
fn refused<'a>(error: Error) -> Result<Option<ArgMatches<'a>>, AllocError>
    ensures { IfOk result (λ given. (given ≡ None) × (kind_of error ≡ ErrorKind.OutOfMemory → ⊥)) }
{
    if is_memory(&error) {
        Err(AllocError)
    } else {
        Ok(None)
    }
}

// What the words give, or none where one is an option that isn't known, is repeated or lacks its value.
fn given<'a>(alloc: Global, words: &'a [String]) -> Result<Option<ArgMatches<'a>>, AllocError>
    ensures { IfOk result (IsGiven (map string_bytes words.entry.now)) }
{
    match command_line(alloc)?.try_get_matches_from(words) {
        Ok(given) => Ok(Some(given)),
        Err(error) => refused(error),
    }
}

/// What the words ask for, or none where they are in no row of the table.
pub fn request_of(alloc: Global, words: &[String]) -> Result<Option<Request>, AllocError>
    ensures { IfOk result (λ request. request ≡ asks (map string_bytes words.now)) }
{
    let Some(given) = given(alloc, words)? else {
        return Ok(None);
    };
    Ok(asked_by(
        texts_of(given.get_strs("words")),
        given.get_str("seed"),
        says_true(given.get_str("json")),
    ))
}
