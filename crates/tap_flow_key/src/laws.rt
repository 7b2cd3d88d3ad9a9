//! What the hash promises beside its definition.

ghost use Rattle.tap_flow_key.specs.Reply.{RepliesHaveOneHash};

/// A frame and one on its way back have one hash.
pub fn replies_have_one_hash()
    ensures { RepliesHaveOneHash }
{}
