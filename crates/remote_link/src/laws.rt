//! Laws of links, each the contract of a function that does nothing.

ghost use Rattle.remote_link.specs.Linking.{LinksAnswer};
ghost use Rattle.remote_link.specs.Talks.{TalksGoOn};

/// The law that whatever is an answer to a request, and goes back behind nothing that was seen, keeps the clause of every call
/// that is spelled so.
pub fn links_answer()
    ensures { LinksAnswer }
{}

/// The law that a talk over a link begins with nothing, and goes on by each request that is answered.
pub fn talks_go_on()
    ensures { TalksGoOn }
{}
