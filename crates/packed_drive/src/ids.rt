//! The ids of the chains that are out.
ghost use Rattle.std.specs.Prelude.{◌≡◌, ◌<◌, ◌^◌, length, IfSome, IfNone, slice_get, All, ◌≤◌};
ghost use Rattle.std.specs.Option.{option_flatten};
ghost use Rattle.packed_drive.specs.Books.{lowest, total};

/// The lowest id that no chain is out with.
pub fn lowest(out: &[Option<u16>]) -> usize
    ensures { result ≡ lowest out.now }
{
    let mut id = 0;
    while id < out.len() && out[id].is_some() {
        id += 1;
    }
    id
}

/// How many descriptors the chain has that is out with an id.
pub fn count_at(out: &[Option<u16>], id: u16) -> Option<u16>
    ensures { result ≡ option_flatten (slice_get out.now id) }
{
    out.get(usize::from(id)).copied().flatten()
}
