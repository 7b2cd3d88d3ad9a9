//! The words of the command line.

ghost use Rattle.std.specs.Prelude.{◌≡◌, IfOk, map, string_bytes};
ghost use Rattle.tap_top.specs.Top.{built, is_built, served};
ghost use Rattle.tap_words.specs.Words.{CountFits};

use std::alloc::{AllocError, Global};
use tap_words::{Request, count_law, request_of};

fn is_built(request: &Request) -> bool
    ensures { result ≡ is_built request.now }
{
    match request {
        Request::Check | Request::Plain { .. } | Request::Gen { .. } | Request::Upgrade => true,
        Request::Live { .. } | Request::Audit => false,
    }
}

fn built(request: Option<Request>) -> Option<Request>
    requires { CountFits request }
    ensures value { result ≡ built request }
    ensures count { CountFits result }
{
    match request {
        Some(request) => {
            if is_built(&request) {
                Some(request)
            } else {
                None
            }
        }
        None => None,
    }
}

/// What the words ask for, where it is built.
pub fn served(alloc: Global, words: &[String]) -> Result<Option<Request>, AllocError>
    ensures value { IfOk result (λ request. request ≡ served (map string_bytes words.now)) }
    ensures count { IfOk result CountFits }
{
    count_law();
    Ok(built(request_of(alloc, words)?))
}
