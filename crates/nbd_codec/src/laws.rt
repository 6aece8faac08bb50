//! Laws of what is read and written. Each function does nothing; its contract is the law.

ghost use Rattle.nbd_codec.specs.Laws as law;

/// An option that is spelled is read as itself, whatever follows it.
#[tactic(auto, using(crate::proofs::Ends::option_back))]
pub fn options_are_read_back()
    ensures { law.OptionsAreReadBack }
{}

/// A request that is spelled is read as itself, whatever follows it.
#[tactic(auto, using(crate::proofs::Ends::request_back))]
pub fn requests_are_read_back()
    ensures { law.RequestsAreReadBack }
{}

/// No option is a proper prefix of another.
#[tactic(auto, using(crate::proofs::Ends::option_ends))]
pub fn options_end_themselves()
    ensures { law.OptionsEndThemselves }
{}

/// No request is a proper prefix of another.
#[tactic(auto, using(crate::proofs::Ends::request_ends))]
pub fn requests_end_themselves()
    ensures { law.RequestsEndThemselves }
{}

/// No reply to an option is a proper prefix of another.
#[tactic(auto, using(crate::proofs::Ends::option_reply_ends))]
pub fn option_replies_end_themselves()
    ensures { law.OptionRepliesEndThemselves }
{}

/// No chunk of a structured reply is a proper prefix of another.
#[tactic(auto, using(crate::proofs::Ends::chunk_ends))]
pub fn chunks_end_themselves()
    ensures { law.ChunksEndThemselves }
{}

/// A simple reply is a proper prefix of another only where both have the same head, and one has more bytes of a read.
#[tactic(auto, using(crate::proofs::Ends::simple_heads))]
pub fn simple_replies_have_heads()
    ensures { law.SimpleRepliesHaveHeads }
{}

/// A chunk is its head, and its content.
pub fn a_chunk_is_its_head_and_content()
    ensures { law.ChunkIsItsHeadAndContent }
{}
