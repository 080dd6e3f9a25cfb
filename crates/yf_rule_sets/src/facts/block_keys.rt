//! Finds in one pass over the events which of them begin keys of block mappings outside of flow collections.
ghost use Rattle.std.specs.Prelude.{◌≡◌, ◌<◌, ◌∷◌, length, reverse, slice_get, IfOk, Some};
ghost use Rattle.yf_events.specs.Event.{EventValue};
ghost use Rattle.yf_events.specs.Reading.{events_of};
ghost use Rattle.yf_rule_sets.specs.Passes.BlockKeys as BlockKeys;
ghost use Rattle.yf_rule_sets.specs.Passes.BlockKeys.{after, next, next_role, role_at};

use std::alloc::AllocError;
use yf_events::event::Event;
use yf_events::reading::Reading;

/// The role of a node in the collection that holds it.
#[derive(Clone, Copy)]
pub enum Role {
    /// A node in a flow collection, or in a block collection that is in one.
    InFlow,
    /// An item of a block sequence, or the root of a document. Events that begin no node have this role too.
    Item,
    /// A key of a block mapping.
    Key,
    /// A value of a block mapping.
    Value,
}

/// Returns the role of the next node in the same collection.
#[inline(always)]
fn following(role: Role) -> Role
    ensures { result ≡ BlockKeys.following role }
{
    match role {
        Role::InFlow => Role::InFlow,
        Role::Item => Role::Item,
        Role::Key => Role::Value,
        Role::Value => Role::Key,
    }
}

/// Returns the role of the first node of a collection with that role: `first` in a block collection outside of flow
/// collections.
#[inline(always)]
fn first_role(role: Role, flow: bool, first: Role) -> Role
    ensures { result ≡ BlockKeys.first_role role flow first }
{
    if flow {
        return Role::InFlow;
    }
    match role {
        Role::InFlow => Role::InFlow,
        Role::Item | Role::Key | Role::Value => first,
    }
}

/// Passes a node and returns its role.
#[inline(always)]
fn pass_node(stack: &mut Vec<Role>) -> Role
    ensures stack { reverse stack.new.items ≡ after (reverse stack.old.items) }
    ensures role { result ≡ next_role (reverse stack.old.items) }
{
    match stack.last_mut() {
        Some(last) => {
            let role = *last;
            *last = following(role);
            role
        }
        None => Role::Item,
    }
}

/// Passes the start of a collection and returns the collection's role.
#[inline(always)]
fn open(stack: &mut Vec<Role>, flow: bool, first: Role) -> Result<Role, AllocError>
    ensures stack { IfOk result (λ _. reverse stack.new.items ≡ BlockKeys.first_role (next_role (reverse stack.old.items)) flow first
        ∷ after (reverse stack.old.items)) }
    ensures role { IfOk result (λ role. role ≡ next_role (reverse stack.old.items)) }
{
    let role = pass_node(stack);
    stack.push(first_role(role, flow, first))?;
    Ok(role)
}

/// Passes the event at an index, which is the next one, and returns the role of the node that it begins. The stack
/// holds the role of the next node in each open collection, the innermost last. Fails if memory is refused.
#[inline(always)]
pub fn pass(stack: &mut Vec<Role>, reading: &Reading, i: usize) -> Result<Role, AllocError>
    requires { i < length reading.now.events }
    ensures stack { IfOk result (λ _. (v : EventValue) → slice_get (events_of reading.now) i ≡ Some v
        → reverse stack.new.items ≡ next v (reverse stack.old.items)) }
    ensures role { IfOk result (λ role. (v : EventValue) → slice_get (events_of reading.now) i ≡ Some v
        → role ≡ role_at v (reverse stack.old.items)) }
{
    match reading.event(i) {
        Event::Scalar { .. } => Ok(pass_node(stack)),
        Event::Alias { .. } => Ok(pass_node(stack)),
        Event::SeqStart { flow, .. } => open(stack, flow, Role::Item),
        Event::MapStart { flow, .. } => open(stack, flow, Role::Key),
        Event::SeqEnd => {
            let _ = stack.pop();
            Ok(Role::Item)
        }
        Event::MapEnd => {
            let _ = stack.pop();
            Ok(Role::Item)
        }
        _ => Ok(Role::Item),
    }
}
