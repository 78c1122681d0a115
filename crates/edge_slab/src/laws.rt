//! The laws of edges: functions that do nothing, whose contracts are theorems over the definitions. Together they say that
//! the walks are exactly the pairs that were linked and not unlinked, in the order of linking.

ghost use Rattle.edge_slab.specs.Laws.{LinksKeepOrder, UnlinksKeepOrder, DropsKeepOrder};

/// The law that a link puts its pair last, unless it is there, and keeps all others in their order.
pub fn links_keep_order()
    ensures { LinksKeepOrder }
{}

/// The law that an unlink takes its pair out, and keeps all others in their order.
pub fn unlinks_keep_order()
    ensures { UnlinksKeepOrder }
{}

/// The law that a drop takes its subscriber's pairs out, and keeps all others in their order.
pub fn drops_keep_order()
    ensures { DropsKeepOrder }
{}
