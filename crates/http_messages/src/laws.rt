//! Laws of the definitions. Each function does nothing; its contract is the law.

ghost use Rattle.http_messages.specs.Meaning.{MessagesHaveOneMeaning};

/// Under one operator's key, bytes ask for only one thing.
pub fn a_message_has_one_meaning()
    ensures { MessagesHaveOneMeaning }
{}
