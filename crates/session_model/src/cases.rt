// Worked cases of a connection, each the contract of a function that does nothing.
ghost use Rattle.session_model.specs.Cases.{HelloIsAnswered, NewIsAnswered, ShortBody, RefusedMessages};

/// HELLO is answered by HELLO.
pub fn hello_is_answered()
    ensures { HelloIsAnswered }
{}

/// NEW with NOTIFY is answered by NEW_OK and DONE.
pub fn new_is_answered()
    ensures { NewIsAnswered }
{}

/// A body that is cut short within a command is answered by GENERAL alone.
pub fn short_body()
    ensures { ShortBody }
{}

/// Versions, types, options and lengths that are refused, and the longest body that is not.
pub fn refused_messages()
    ensures { RefusedMessages }
{}
