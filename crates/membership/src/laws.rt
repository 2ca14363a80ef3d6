//! Laws that every row of the table keeps. The functions do nothing: a caller calls them for what they ensure.
ghost use Rattle.std.specs.Prelude.{◌≢◌, ◌<◌, ℕ, length};
ghost use Rattle.node_names.specs.NodeName.{Name};
ghost use Rattle.node_names.specs.declared.dice.Dice.{Dice};
ghost use Rattle.views.specs.Views.{AreSound};
ghost use Rattle.membership.specs.Event.{Event};
ghost use Rattle.membership.specs.declared.event.EventOf.TheVariants as Event;
ghost use Rattle.membership.specs.Laws.{AreAboutMembership, FitFrames, FitsFrame, GoesOnOnce};
ghost use Rattle.membership.specs.Laws.{IsFromAnother, Lawful, OneRequest, walks};
ghost use Rattle.membership.specs.Membership.{Membership, still};
ghost use Rattle.membership.specs.Table.{table};

/// Ensures that each row keeps the views sound and keeps their owner and limits, sends nothing to the owner, and
/// reports exactly the names that the active view lost and gained, at most one of each.
pub fn every_row_is_lawful()
    ensures { (m : Membership) (event : Event) (dice : Dice) → AreSound m.views → IsFromAnother m.views.owner event
        → Lawful m (table event dice (still m)) }
{}

/// Ensures that a JOIN starts fewer walks than the active view has places, and that a node passes a walk on at most
/// once, with one step less. So a walk is passed on at most as often as it has steps.
pub fn walks_are_bounded()
    ensures starts { (m : Membership) (dice : Dice) (sender : Name) → AreSound m.views → sender ≢ m.views.owner
        → length (walks (table (Event.Join sender) dice (still m)).sends) < m.views.limits.active }
    ensures goes_on { (m : Membership) (dice : Dice) (sender new : Name) (ttl : ℕ)
        → GoesOnOnce new ttl (table (Event.ForwardJoin sender new ttl) dice (still m)).sends }
{}

/// Ensures that a request stands until it is answered, its link fails or the tick forgets it. Only then is another
/// made: it asks a passive name, and is the event's last message.
pub fn one_request_stands()
    ensures { (m : Membership) (event : Event) (dice : Dice) → OneRequest m event (table event dice (still m)) }
{}

/// Ensures that each message fits a frame, if the names of a received SHUFFLE do.
pub fn messages_fit_frames()
    ensures { (m : Membership) (event : Event) (dice : Dice) → AreSound m.views → FitsFrame event
        → FitFrames (table event dice (still m)) }
{}

/// Ensures that each message is about membership only.
pub fn messages_are_about_membership()
    ensures { (m : Membership) (event : Event) (dice : Dice) → AreAboutMembership (table event dice (still m)) }
{}
