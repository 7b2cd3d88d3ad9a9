use crate::{Request, request_of};
use std::alloc::Global;
use std::test::Fail;

/// Words, and what they ask for.
const ROWS: [(&[&str], Option<Request>); 6] = [
    (&["check"], Some(Request::Check)),
    (
        &["plain", "--seed", "3"],
        Some(Request::Plain {
            seed: 3,
            json: false,
        }),
    ),
    (
        &["--seed=3", "--json", "plain"],
        Some(Request::Plain {
            seed: 3,
            json: true,
        }),
    ),
    (&["--", "gen", "7"], Some(Request::Gen { count: 7 })),
    (&["plain", "--seed", "3", "--seed", "3"], None),
    (&["plain", "-"], None),
];

fn asked(alloc: Global, words: &[&str]) -> Result<Option<Request>, Fail> {
    let mut list = Vec::new(alloc);
    for word in words {
        list.push(String::from_str(alloc, word)?)?;
    }
    Ok(request_of(alloc, &list)?)
}

#[test]
fn words_are_read(rt: HostRuntime) -> Result<(), Fail> {
    for (words, want) in ROWS {
        assert_eq!(rt; asked(rt.alloc(), words)?, want);
    }
    Ok(())
}
