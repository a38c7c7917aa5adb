//! What holds for every rack of lanes. The law is a contract with an empty body.

ghost use Rattle.link_lanes.specs.Histories.{FatesByPostsSince};
ghost use Rattle.link_lanes.specs.Lanes.{RacksGoOn};

/// A rack that counts post by post, and lets go of lanes whose span has ended, gives the same fates.
pub fn racks()
    ensures { RacksGoOn }
{}

/// Over any posts, lanes hung later and lanes let go, each lane answers by the posts made since it was hung.
pub fn histories()
    ensures { FatesByPostsSince }
{}
