//! Laws of the definitions.
//!
//! A law is a function with an empty body: only its contract counts.
ghost use Rattle.mirror_http.specs.Laws.{EqualViewsReplyAlike, HasServerLimits, ResponseIsOne, ResponseIsThere, TargetsNameOne};

/// A target names at most one resource.
pub fn one_resource_law()
    ensures { TargetsNameOne }
{}

/// A lawful view has exactly one reply to the bytes of a client. So equal views have equal replies to equal bytes.
pub fn one_response_law()
    ensures one { ResponseIsOne }
    ensures there { ResponseIsThere }
    ensures alike { EqualViewsReplyAlike }
{}

/// The head of a request has at most 8,192 bytes and 64 fields.
pub fn request_limits_law()
    ensures { HasServerLimits }
{}
