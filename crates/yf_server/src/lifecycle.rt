//! The steps of a server for each message, by its phase.
ghost use Rattle.std.specs.Prelude.{◌≡◌};
ghost use Rattle.yf_json_rpc.specs.Messages.{kind_read};
ghost use Rattle.yf_server.specs.Lifecycle.{notification_step, request_step, step_of};

use yf_json_rpc::error_code::ErrorCode;
use yf_json_rpc::message::Message;

/// The phase of a server.
#[derive(Clone, Copy)]
pub enum Phase {
    /// No request `initialize` has come.
    Fresh,
    /// `initialize` has come, and `shutdown` has not.
    Running,
    /// `shutdown` has come.
    ShutDown,
}

/// The task of a server for a message.
#[derive(Clone, Copy)]
pub enum Task {
    /// It responds to `initialize` with its capabilities.
    Initialize,
    /// It responds to `shutdown` with null.
    Shutdown,
    /// It responds to a request that is not of the life cycle.
    Request,
    /// It responds with an error.
    Fail(ErrorCode),
    /// It handles a notification that is not of the life cycle, without a response.
    Notification,
    /// It does nothing.
    Ignore,
    /// It ends, with success if `shutdown` has come.
    Exit { is_success: bool },
}

/// The phase of a server after a message, and its task for the message.
#[derive(Clone, Copy)]
pub struct Step {
    pub phase: Phase,
    pub task: Task,
}

/// Returns the step of a server for a request.
fn request_step(phase: Phase, method: &str) -> Step
    ensures { result ≡ request_step phase method.now }
{
    match phase {
        Phase::Fresh => {
            if method == "initialize" {
                return Step {
                    phase: Phase::Running,
                    task: Task::Initialize,
                };
            }
            Step {
                phase,
                task: Task::Fail(ErrorCode::ServerNotInitialized),
            }
        }
        Phase::Running => {
            if method == "initialize" {
                return Step {
                    phase,
                    task: Task::Fail(ErrorCode::InvalidRequest),
                };
            }
            if method == "shutdown" {
                return Step {
                    phase: Phase::ShutDown,
                    task: Task::Shutdown,
                };
            }
            Step {
                phase,
                task: Task::Request,
            }
        }
        Phase::ShutDown => Step {
            phase,
            task: Task::Fail(ErrorCode::InvalidRequest),
        },
    }
}

/// Returns the step of a server for a notification.
fn notification_step(phase: Phase, method: &str) -> Step
    ensures { result ≡ notification_step phase method.now }
{
    if method == "exit" {
        let is_success = match phase {
            Phase::Fresh => false,
            Phase::Running => false,
            Phase::ShutDown => true,
        };
        return Step {
            phase,
            task: Task::Exit { is_success },
        };
    }
    match phase {
        Phase::Fresh => Step {
            phase,
            task: Task::Ignore,
        },
        Phase::Running => Step {
            phase,
            task: Task::Notification,
        },
        Phase::ShutDown => Step {
            phase,
            task: Task::Ignore,
        },
    }
}

/// Returns the step of a server for a message, with the phase after it.
pub fn next_step(phase: Phase, message: Message<'_>) -> Step
    ensures { result ≡ step_of phase (kind_read message.entry) }
{
    match message {
        Message::Request { id: _, method } => request_step(phase, method),
        Message::Notification { method } => notification_step(phase, method),
        Message::Response { id: _ } => Step {
            phase,
            task: Task::Ignore,
        },
        Message::Invalid => Step {
            phase,
            task: Task::Fail(ErrorCode::InvalidRequest),
        },
    }
}
