//! Laws of following, over the definitions alone.

ghost use Rattle.trace_plain.specs.Laws.{FollowsOnce, FollowsTheList};

/// At most one outcome follows a trace of one path, and the outcomes that follow any trace are those of the list.
pub fn following()
    ensures once { FollowsOnce }
    ensures list { FollowsTheList }
{}
