//! Laws of pictures: each thing that was put has one arrow.
ghost use Rattle.std.specs.Prelude.{◌≡◌, ℕ, ◌≤◌, List, length, map, flat_map, IsPermutation};
ghost use Rattle.traces.specs.declared.crossings.Lane.{Lane};
ghost use Rattle.traces.specs.Arrows.{IsWay, arrows_of, ways_of};
ghost use Rattle.traces.specs.Crossings.{from_to, only_on, puts_of};
ghost use Rattle.world.specs.declared.events.Event.{Event};
ghost use Rattle.world.specs.EventEffects.{TraceShown, event_effects_of, trace_of};

/// Each thing that a trace put on a way of the picture has one arrow, and each arrow is of one: way after way, the
/// arrows are those of what was put on it, in order.
pub fn each_put_has_its_arrow()
    ensures { (homes : List ℕ) (events : List Event) (trace : TraceShown)
        → map (λ arrow. arrow.put) (arrows_of homes events trace)
        ≡ flat_map (λ way. only_on way (puts_of trace.event_effects)) (ways_of (length trace.world.servers) homes) }
{}

/// No way of a picture is left out, and none is drawn twice: from any server to any, and between a connection and its
/// home, the arrows are those of what was put on this way, each thing's once and in order.
pub fn each_way_is_drawn_once()
    ensures { (homes : List ℕ) (events : List Event) (trace : TraceShown) (from to : Lane)
        → IsWay (length trace.world.servers) homes from to
        → only_on (from_to from to) (map (λ arrow. arrow.put) (arrows_of homes events trace))
        ≡ only_on (from_to from to) (puts_of trace.event_effects) }
{}

/// Whatever a run puts, each call, message and reply, has exactly one arrow in its picture, and no arrow is of anything
/// else: a run puts nothing that isn't on a way of its picture.
pub fn each_put_of_a_run_has_one_arrow()
    ensures { (count : ℕ) (homes : List ℕ) (events : List Event)
        → count ≤ 16
        → IsPermutation (puts_of (event_effects_of count homes events))
        (map (λ arrow. arrow.put) (arrows_of homes events (trace_of count homes events))) }
{}
