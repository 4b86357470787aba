//! Worked runs: what they come to; and runs that have no order, or forget a call, if a move lacks its rule.
ghost use Rattle.std.specs.Prelude.{◌≡◌, ℕ, ◌<◌, false, List, [], ◌∷◌, ◌++◌, take, None, Some, codes};
ghost use Rattle.table.specs.declared.operations.Reply.TheVariants.{Stored, Value, Flushed};
ghost use Rattle.proto.specs.Turns.{Replied, Refused};
ghost use Rattle.node.specs.declared.messages.Body.TheVariants.{Ack};
ghost use Rattle.world.specs.Orders.{OrderedCall};
ghost use Rattle.world.specs.WorkedSchedules.{name, sets_exchanged};
ghost use Rattle.interleavings.specs.Chains.{messages_to};
ghost use Rattle.interleavings.specs.Moves.{Move, Looks, read_of, moved, done};
ghost use Rattle.interleavings.specs.Asked.{AreAsked};
ghost use Rattle.interleavings.specs.Orders.{begun_call, reply_to, IsLinearization, IsInTurn};
ghost use Rattle.interleavings.specs.Quiet.{IsQuiet};
ghost use Rattle.interleavings.specs.OtherMoves.{moved_by, IsLinearizationBy, HasNoOrder};
ghost use Rattle.interleavings.specs.WrongMoves.{with_older_looks, with_early_puts, with_early_notices};
ghost use Rattle.interleavings.specs.WrongMoves.{with_lossy_channels, with_taken_ports, with_old_holders};
ghost use Rattle.interleavings.specs.FreePorts.{with_free_ports};
ghost use Rattle.interleavings.specs.Pools.{pooled, IsServingQuiet};
ghost use Rattle.interleavings.specs.WorkedPorts.{shared_homes, port_zero, flush, set_has_port, port_moves};
ghost use Rattle.interleavings.specs.WorkedPorts.{taken_moves, old_moves, waiting_moves, collected_moves};
ghost use Rattle.interleavings.specs.WorkedPorts.{queued_moves};
ghost use Rattle.interleavings.specs.PortQueues.{queued};
ghost use Rattle.interleavings.specs.WorkedRuns.{key, set, other_set, item, set_homes, set_moves};
ghost use Rattle.interleavings.specs.WorkedRuns.{left_to_do};
ghost use Rattle.interleavings.specs.WorkedRuns.{failover_homes, look_while_dirty, failover_moves};
ghost use Rattle.interleavings.specs.WorkedRuns.{older_homes, before_older_look, early_homes};
ghost use Rattle.interleavings.specs.WorkedRuns.{before_unpublished_look, told_homes, before_outlived_look};
ghost use Rattle.interleavings.specs.WorkedRuns.{cut_moves, flight_homes, flight_moves, lossy_moves};
ghost use Rattle.interleavings.specs.ServingMoves.{served};
ghost use Rattle.interleavings.specs.Served.{is_call_published, PublishedFirst, ServedCall, StandsThere, IsOneOrder};
ghost use Rattle.interleavings.specs.Served.{IsServedInTurn};
ghost use Rattle.interleavings.specs.Rows.{IsRow, IsPublishedInTurn, IsRowInTurn, row_read};
ghost use Rattle.interleavings.specs.Rows.{row_calls, row_replies, row_written};
ghost use Rattle.interleavings.specs.WorkedRows.{first_bytes, second_bytes, two_parts, pipelined_moves};
ghost use Rattle.interleavings.specs.WorkedRows.{first_call, second_call, overtaken_moves, one_sender, two_senders};
ghost use Rattle.interleavings.specs.Senders.{HaveOneSender, AreTakenInOrder, AreOfSenders, AreTakenInPortOrder};
ghost use Rattle.interleavings.specs.WorkedRows.{own_number, one_port_sender, pooled_moves};
ghost use Rattle.interleavings.specs.WorkedServing.{talk_homes, talk_moves, last_moves, lost_moves, delete};
ghost use Rattle.interleavings.specs.WorkedServing.{refused_moves, turn_moves, first_set, second_set};

/// A set passes down a chain of two and back, and its client has the reply.
pub fn set_is_answered()
    ensures answered { reply_to (moved 2 set_homes set_moves) (name 0 0) ≡ Some Stored }
    ensures quiet { IsQuiet (moved 2 set_homes set_moves) }
    // Clients can ask these calls.
    ensures asked { AreAsked set_moves }
{}

/// A look shows nothing of a dirty key; the tail stops, and the head is left as head and tail; then the set is
/// answered, and a look shows its item.
pub fn failover_with_looks()
    ensures dirty { begun_call (moved 2 failover_homes look_while_dirty) (name 1 0) ≡ None }
    ensures stored { reply_to (moved 2 failover_homes failover_moves) (name 0 0) ≡ Some Stored }
    ensures shown { reply_to (moved 2 failover_homes failover_moves) (name 1 0) ≡ Some (Value (Some item)) }
    ensures quiet { IsQuiet (moved 2 failover_homes failover_moves) }
    // Clients can ask these calls.
    ensures asked { AreAsked failover_moves }
{}

/// The tail commits a set and stops before it has put the acknowledgement. The head is told, and answers; then nothing
/// is left to do, though what the tail had left to put was never put.
pub fn stopped_before_put()
    ensures left { messages_to 0 ((moved 2 set_homes cut_moves).servers 1).outbox
        ≡ record { view = 0; body = Ack 1 } ∷ [] }
    ensures stored { reply_to (moved 2 set_homes cut_moves) (name 0 0) ≡ Some Stored }
    ensures quiet { IsQuiet (moved 2 set_homes cut_moves) }
    // Clients can ask these calls.
    ensures asked { AreAsked cut_moves }
{}

/// Two sets on two keys, of two clients of one server; the one that is sent last is published first, and neither is
/// answered before the other is sent. The order that has the other one first is a linearization, and isn't in turn.
pub fn published_set_stands_first()
    ensures linearization { IsLinearization 1 flight_homes flight_moves sets_exchanged }
    ensures not_in_turn { IsInTurn 1 flight_homes flight_moves sets_exchanged → ⊥ }
    // Clients can ask these calls.
    ensures asked { AreAsked flight_moves }
{}

/// A set and a get, cut within the set's data block, are answered in turn, and their client is written both answers.
/// The next client of the seat is written nothing of them.
pub fn cut_input_is_answered()
    ensures written { ((served done 2 talk_homes (talk_moves ++ last_moves)).connections 0 0).written
        ≡ codes "STORED\r\nVALUE a 0 1\r\np\r\nEND\r\n" }
    ensures next { ((served done 2 talk_homes (talk_moves ++ last_moves)).connections 0 1).written
        ≡ codes "ERROR\r\n" }
{}

/// A connection ends while its call has no reply. The reply stays in the seat's queue: the seat's next connection isn't
/// written it, and makes no call.
pub fn next_connection_gets_no_old_reply()
    ensures kept { ((served done 2 talk_homes lost_moves).chain.seats 0).queued ≡ Stored ∷ [] }
    ensures due { ((served done 2 talk_homes lost_moves).connections 0 1).due ≡ Some delete }
    ensures calls { ((served done 2 talk_homes lost_moves).connections 0 1).calls ≡ [] }
    ensures written { ((served done 2 talk_homes lost_moves).connections 0 1).written ≡ [] }
{}

/// A set is refused, and one that is silent too. Neither is ever made, so a get after them finds nothing; of the two
/// the client is written one line.
pub fn refused_set_is_never_made()
    ensures outcomes { ((served done 2 talk_homes refused_moves).connections 0 0).outcomes
        ≡ Refused ∷ Refused ∷ Replied (Value None) ∷ [] }
    ensures calls { ((served done 2 talk_homes refused_moves).connections 0 0).calls ≡ read_of key ∷ [] }
    ensures written { ((served done 2 talk_homes refused_moves).connections 0 0).written
        ≡ codes "SERVER_ERROR out of memory storing object\r\nEND\r\n" }
{}

/// Two connections of one server each make a set, one of them after a set of another connection of its seat. The one
/// that is made last waits as it is made, and is published first.
pub fn set_made_last_is_published_first()
    ensures waits { is_call_published (λ c. c) (served done 1 flight_homes (take 14 turn_moves)) first_set ≡ false }
    ensures published { PublishedFirst done (λ c. c) 1 flight_homes turn_moves first_set second_set }
{}

/// A client has two sets in flight: they are a row of two connections. The second one's reply comes first, and both
/// lines are written in turn.
pub fn two_sets_are_in_flight()
    ensures read { row_read (served done 1 flight_homes pipelined_moves) two_parts ≡ first_bytes ++ second_bytes }
    // After six moves both are made, and none has its reply.
    ensures in_flight { row_calls (served done 1 flight_homes (take 6 pipelined_moves)) two_parts
        ≡ set ∷ other_set ∷ [] }
    ensures no_reply { row_replies (served done 1 flight_homes (take 6 pipelined_moves)) two_parts ≡ [] }
    ensures row { IsRow done 1 flight_homes pipelined_moves two_parts }
    ensures published { IsPublishedInTurn done (λ c. c) 1 flight_homes pipelined_moves two_parts }
    // So the first set stands before the second one in each order that the laws give.
    ensures order { (h : List ServedCall)
        → IsOneOrder done 1 flight_homes pipelined_moves h
        → IsServedInTurn done (λ c. c) 1 flight_homes pipelined_moves h
        → (i : ℕ) × (j : ℕ) × (i < j) × StandsThere h i first_call × StandsThere h j second_call }
    ensures written { row_written (served done 1 flight_homes pipelined_moves) two_parts
        ≡ codes "STORED\r\nSTORED\r\n" }
{}

/// A client has two sets in flight, and the second one is published first. They are a row too, but no order of all
/// calls has its calls in turn.
pub fn overtaken_set_is_out_of_turn()
    ensures row { IsRow done 1 flight_homes overtaken_moves two_parts }
    ensures out_of_turn { (h : List ServedCall)
        → IsOneOrder done 1 flight_homes overtaken_moves h
        → IsServedInTurn done (λ c. c) 1 flight_homes overtaken_moves h
        → IsRowInTurn (λ c. c) (served done 1 flight_homes overtaken_moves) two_parts h
        → ⊥ }
{}

/// Two sets of one client go by one sender: in one run they are taken in the order in which they were sent, and in
/// another they aren't.
pub fn one_sender_keeps_the_order()
    ensures one { HaveOneSender one_sender two_parts }
    ensures in_order { AreTakenInOrder one_sender 1 flight_homes pipelined_moves }
    ensures overtaken { AreTakenInOrder one_sender 1 flight_homes overtaken_moves → ⊥ }
{}

/// The two sets of one client go from two ports of one sender, and are taken in the order in which they were sent.
pub fn ports_of_one_sender_keep_the_order()
    ensures senders { AreOfSenders one_port_sender one_sender own_number flight_homes }
    ensures in_order { AreTakenInPortOrder one_port_sender own_number 1 flight_homes pooled_moves }
    ensures calls { ((pooled 1 flight_homes own_number pooled_moves).connections 1 0).calls ≡ other_set ∷ [] }
{}

/// If the two sets go by two senders, each sender's calls may be taken in order, and the sets not published in turn.
pub fn two_senders_may_overtake()
    ensures two { HaveOneSender two_senders two_parts → ⊥ }
    ensures in_order { AreTakenInOrder two_senders 1 flight_homes overtaken_moves }
    ensures out_of_turn { IsPublishedInTurn done (λ c. c) 1 flight_homes overtaken_moves two_parts → ⊥ }
{}

/// Two seats of one server choose the same port. The second one's flush isn't sent while the first one's set is open
/// there; it is once the set's reply was put, and each seat gets its own reply.
pub fn port_is_used_again()
    ensures waits { begun_call (moved_by (with_free_ports shared_homes port_zero) 1 shared_homes set_has_port)
        (name 1 0)
        ≡ None }
    ensures first { reply_to (moved_by (with_free_ports shared_homes port_zero) 1 shared_homes port_moves) (name 0 0)
        ≡ Some Stored }
    ensures second { reply_to (moved_by (with_free_ports shared_homes port_zero) 1 shared_homes port_moves) (name 1 0)
        ≡ Some Flushed }
    // Clients can ask these calls.
    ensures asked { AreAsked port_moves }
{}

/// A connection ends while its set is open, and another one of its server has chosen the same port for a flush. That
/// isn't sent before the set's reply was put and was collected; then it is answered.
pub fn collected_port_is_used_again()
    ensures waits { ((pooled 1 shared_homes port_zero waiting_moves).connections 1 0).calls ≡ [] }
    ensures calls { ((pooled 1 shared_homes port_zero collected_moves).connections 1 0).calls ≡ flush ∷ [] }
    ensures written { ((pooled 1 shared_homes port_zero collected_moves).connections 1 0).written ≡ codes "OK\r\n" }
    // The set's reply went to nobody.
    ensures lost { ((pooled 1 shared_homes port_zero collected_moves).connections 0 0).replies ≡ [] }
    // Nothing is left to do then.
    ensures quiet { IsServingQuiet (pooled 1 shared_homes port_zero collected_moves) }
{}

/// The same with queues of ports: the set's reply stands in the queue of the port until it is collected, and then the
/// flush's reply comes into that queue and goes to its connection.
pub fn port_queue_is_used_again()
    ensures waits { (queued 1 shared_homes port_zero waiting_moves).queues 0 0 ≡ Stored ∷ [] }
    ensures written { ((queued 1 shared_homes port_zero queued_moves).pooled.serving.connections 1 0).written
        ≡ codes "OK\r\n" }
    ensures empty { (queued 1 shared_homes port_zero queued_moves).queues 0 0 ≡ [] }
{}

/// If a call may be sent from a port at which another one is open, a run has no order.
pub fn taken_port_has_no_order()
    ensures { HasNoOrder (with_taken_ports shared_homes port_zero) 1 shared_homes taken_moves }
{}

/// If a reply may go to the seat that had its port before, a run has no order.
pub fn old_holder_has_no_order()
    ensures { HasNoOrder (with_old_holders shared_homes port_zero) 1 shared_homes old_moves }
{}

/// If a look may show an older face than the one that stands, a run has no order.
pub fn older_look_has_no_order()
    ensures { HasNoOrder with_older_looks 1 older_homes (before_older_look ++ Looks 1 key ∷ []) }
{}

/// If what a step puts out may be put before the step is published, a run has no order.
pub fn early_put_has_no_order()
    ensures { HasNoOrder with_early_puts 2 early_homes (before_unpublished_look ++ Looks 1 key ∷ []) }
{}

/// If others may be told that a server has stopped while its face still stands, a run has no order.
pub fn early_notice_has_no_order()
    ensures { HasNoOrder with_early_notices 2 told_homes (before_outlived_look ++ Looks 1 key ∷ []) }
{}

/// If a channel may leave out a message, a call may be forgotten: nothing is left to do in a chain all of whose servers
/// go on, and the call has no reply.
pub fn lossy_channel_forgets_a_call()
    ensures begun { begun_call (moved_by with_lossy_channels 2 set_homes lossy_moves) (name 0 0) ≡ Some set }
    ensures forgotten { reply_to (moved_by with_lossy_channels 2 set_homes lossy_moves) (name 0 0) ≡ None }
    ensures quiet { IsQuiet (moved_by with_lossy_channels 2 set_homes lossy_moves) }
    ensures first { left_to_do (moved_by with_lossy_channels 2 set_homes lossy_moves) 0 ≡ ([], None, []) }
    ensures second { left_to_do (moved_by with_lossy_channels 2 set_homes lossy_moves) 1 ≡ ([], None, []) }
    ensures down { (moved_by with_lossy_channels 2 set_homes lossy_moves).channels 0 1 ≡ [] }
    ensures back { (moved_by with_lossy_channels 2 set_homes lossy_moves).channels 1 0 ≡ [] }
    ensures queued { ((moved_by with_lossy_channels 2 set_homes lossy_moves).seats 0).queued ≡ [] }
    ensures head_goes_on { ((moved_by with_lossy_channels 2 set_homes lossy_moves).servers 0).stopped ≡ false }
    ensures tail_goes_on { ((moved_by with_lossy_channels 2 set_homes lossy_moves).servers 1).stopped ≡ false }
{}

/// With what the moves do, `IsLinearizationBy` is the law's `IsLinearization`: so the runs above differ from the law's
/// by the moves that lack a rule alone.
pub fn ordinary_moves()
    ensures order { (count : ℕ) (homes : List ℕ) (moves : List Move) (h : List OrderedCall)
        → IsLinearizationBy done count homes moves h
        → IsLinearization count homes moves h }
    ensures converse { (count : ℕ) (homes : List ℕ) (moves : List Move) (h : List OrderedCall)
        → IsLinearization count homes moves h
        → IsLinearizationBy done count homes moves h }
{}
