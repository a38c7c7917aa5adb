//! What holds for every link. The law is a contract with an empty body.

ghost use Rattle.lossy_link.specs.Histories.{EachCopyOnce};

/// Over any posts and any ticks whose copies are taken out, each copy comes out once, at its tick, in the order of posts,
/// with the bytes of its post.
pub fn each_copy_once()
    ensures { EachCopyOnce }
{}
