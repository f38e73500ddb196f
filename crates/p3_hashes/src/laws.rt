//! Laws of the definitions, each as the contract of a function that does nothing.
ghost use Rattle.p3_hashes.specs.Laws.{GroupsAreMessages};

/// Two different lists of equally many digests of 32 bytes are two different messages of SHA-256, where the message of
/// a list is its digests, one after another. So two different groups of one arity with one digest are a collision of
/// SHA-256. [`group_message`](crate::sha::group_message) makes these messages.
pub fn groups_are_messages()
    ensures { GroupsAreMessages }
{}
