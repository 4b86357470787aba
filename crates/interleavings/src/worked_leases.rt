//! Worked runs of servers with leases: one whose server goes on after it was called gone, and two that have no order,
//! as something is put out that was made up too late.
ghost use Rattle.std.specs.Prelude.{◌≡◌, ◌≢◌, ℕ, true, List, [], None, Some, codes};
ghost use Rattle.table.specs.declared.operations.Reply.TheVariants.{Stored, Value};
ghost use Rattle.world.specs.Orders.{OrderedCall};
ghost use Rattle.world.specs.WorkedSchedules.{name};
ghost use Rattle.interleavings.specs.Orders.{reply_to, is_published};
ghost use Rattle.interleavings.specs.LeasedMoves.{leased, AreAskedLeased, put_for, reply_written};
ghost use Rattle.interleavings.specs.LeasedOrders.{AreRepliesLeased, AreMessagesLeased, IsLeased, IsOrderOfWritten};
ghost use Rattle.interleavings.specs.LeasedOrders.{HasNoOrderOfWritten};
ghost use Rattle.interleavings.specs.Served.{ServedCall};
ghost use Rattle.interleavings.specs.LeasedServing.{leased_serving, made_up, IsLeasedServing, IsOrderBeforeGone};
ghost use Rattle.interleavings.specs.WorkedRuns.{told_homes};
ghost use Rattle.interleavings.specs.WorkedLeases.{lapsed_homes, lapsed_moves, late_write_moves, late_homes};
ghost use Rattle.interleavings.specs.WorkedLeases.{late_message_moves, serving_homes, serving_moves};

/// The tail was called gone and goes on: it publishes the step of a set, puts a message, and a client looks at its face
/// and finds nothing, though a set was answered before. Nothing of that comes out, so there is an order.
pub fn lapsed_server_goes_on()
    ensures leased { IsLeased 2 lapsed_homes lapsed_moves }
    ensures asked { AreAskedLeased lapsed_moves }
    ensures stored { reply_written (leased 2 lapsed_homes lapsed_moves) (name 0 0) ≡ Some Stored }
    ensures published { is_published (leased 2 lapsed_homes lapsed_moves).chain (name 2 0) ≡ true }
    ensures put { put_for (leased 2 lapsed_homes lapsed_moves) 1 0 ≡ 1 }
    ensures looked { reply_to (leased 2 lapsed_homes lapsed_moves).chain (name 1 0) ≡ Some (Value None) }
    ensures unwritten { reply_written (leased 2 lapsed_homes lapsed_moves) (name 1 0) ≡ None }
    ensures order { (h : List OrderedCall) × IsOrderOfWritten 2 lapsed_homes lapsed_moves h }
{}

/// If a client is written what it found at a server after that was called gone, a run has no order, though each other
/// reply and each message was made up in time.
pub fn late_write_has_no_order()
    ensures no_order { HasNoOrderOfWritten 2 told_homes late_write_moves }
    ensures replies { (c : ℕ) → c ≢ 1 → AreRepliesLeased 2 told_homes late_write_moves c }
    ensures messages { (i j : ℕ) → AreMessagesLeased 2 told_homes late_write_moves i j }
{}

/// If a message arrives that a server put after it was called gone, a run has no order, though each reply and the
/// messages of all other servers were made up in time: also if it arrives where nobody was told.
pub fn late_message_has_no_order()
    ensures no_order { HasNoOrderOfWritten 3 late_homes late_message_moves }
    ensures replies { (c : ℕ) → AreRepliesLeased 3 late_homes late_message_moves c }
    ensures messages { (i j : ℕ) → i ≢ 2 → AreMessagesLeased 3 late_homes late_message_moves i j }
{}

/// The tail was called gone, and serves a connection: it takes a get and its session makes up that there is nothing,
/// though a set was answered before. That isn't written, so all that was put out was made up in time, and there is an
/// order.
pub fn lapsed_server_serves_on()
    ensures leased { IsLeasedServing 2 serving_homes serving_moves }
    ensures stored { ((leased_serving 2 serving_homes serving_moves).serving.connections 0 0).written
        ≡ codes "STORED\r\n" }
    ensures made_up { made_up ((leased_serving 2 serving_homes serving_moves).serving.connections 1 0)
        ≡ codes "END\r\n" }
    ensures unwritten { ((leased_serving 2 serving_homes serving_moves).serving.connections 1 0).written ≡ [] }
    ensures order { (h : List ServedCall) × IsOrderBeforeGone 2 serving_homes serving_moves h }
{}
