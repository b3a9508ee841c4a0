//! A law: an answer is unique.
ghost use Rattle.one_domain.specs.Once.{ReplyIsOne};

/// A law: a request has only one reply.
pub fn reply_is_one()
    ensures { ReplyIsOne }
{}
