//! Finds the events in flow collections, in one pass over the events of a measured reading.
ghost use Rattle.std.specs.Prelude.{◌≡◌, ◌<◌, ◌+◌, ℕ, List, Some, length, slice_get};
ghost use Rattle.yf_forms.specs.Nodes.FlowsAlone.{flows_alone};
ghost use Rattle.yf_forms.specs.NormalForms.Measures.{AreMeasures};
ghost use Rattle.yf_forms.specs.NormalForms.Normal.{LayoutSetting};
ghost use Rattle.yf_events.specs.Event.{EventValue};
ghost use Rattle.yf_events.specs.Reading.{events_of};
ghost use Rattle.yf_events.specs.Tree.{DocumentTree, TreesOf};
ghost use Rattle.yf_rule_sets.specs.Passes.OuterFlow as OuterFlow;
ghost use Rattle.yf_rule_sets.specs.Passes.OuterFlow.{FlowsDone};

use yf_events::event::Event;
use yf_events::reading::Reading;
use yf_forms::form::measures::Measures;

/// Returns whether the event begins a flow collection.
#[inline(always)]
pub fn starts_flow(reading: &Reading, i: usize) -> bool
    requires { i < length reading.now.events }
    ensures { (e : EventValue) → slice_get (events_of reading.now) i ≡ Some e → result ≡ OuterFlow.starts_flow e }
{
    match reading.event(i) {
        Event::SeqStart { flow, .. } => flow,
        Event::MapStart { flow, .. } => flow,
        _ => false,
    }
}

/// Passes the event at an index. `done`, and the result, is the index of the last event of the flow collections that
/// begin before the cursor, or 0 if there is none. The measures are those of the reading, or only of its flow
/// collections.
#[inline(always)]
pub fn past_flow(reading: &Reading, measures: &Measures, i: usize, done: usize) -> usize
    requires { i < length reading.now.events }
    ensures measured { (t : List ℕ) (c : LayoutSetting) (trees : List DocumentTree) → TreesOf reading.now trees
        → AreMeasures t c reading.now.events measures.now → FlowsDone reading.now.events i done → FlowsDone reading.now.events (i + 1) result }
    ensures alone { (t : List ℕ) (c : LayoutSetting) (trees : List DocumentTree) → TreesOf reading.now trees
        → AreMeasures t c (flows_alone 0 reading.now.events) measures.now → FlowsDone reading.now.events i done
        → FlowsDone reading.now.events (i + 1) result }
{
    if i <= done {
        return done;
    }
    if starts_flow(reading, i) {
        return measures.at(i).last;
    }
    done
}
