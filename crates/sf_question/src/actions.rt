ghost use Rattle.std.specs.Prelude.{◌≡◌};
ghost use Rattle.sf_question.specs.Actions.{is_no_action, has_action};

use sf_run::Action;

/// A set of the actions of seccomp(2): for each one with a name whether it is in the set, and for all others together.
#[derive(Clone, Copy, Debug, PartialEq, Eq)]
pub struct ActionSet {
    pub kill_process: bool,
    pub kill_thread: bool,
    pub trap: bool,
    pub errno: bool,
    pub user_notif: bool,
    pub trace: bool,
    pub log: bool,
    pub allow: bool,
    pub other: bool,
}

impl ActionSet {
    /// The set without an action.
    pub const EMPTY: ActionSet = ActionSet {
        kill_process: false,
        kill_thread: false,
        trap: false,
        errno: false,
        user_notif: false,
        trace: false,
        log: false,
        allow: false,
        other: false,
    };

    /// ALLOW and LOG: the actions under which the kernel carries out the call, whatever a supervisor does.
    pub const LET_THROUGH: ActionSet = ActionSet {
        kill_process: false,
        kill_thread: false,
        trap: false,
        errno: false,
        user_notif: false,
        trace: false,
        log: true,
        allow: true,
        other: false,
    };

    /// Whether no action is in the set.
    pub fn is_empty(self) -> bool
        ensures { result ≡ is_no_action self }
    {
        !(self.kill_process
            || self.kill_thread
            || self.trap
            || self.errno
            || self.user_notif
            || self.trace
            || self.log
            || self.allow
            || self.other)
    }

    /// Whether the action is in the set. An action without a name is in it where `other` is true.
    pub fn has(self, action: Action) -> bool
        ensures { result ≡ has_action self action }
    {
        match action {
            Action::KillProcess => self.kill_process,
            Action::KillThread => self.kill_thread,
            Action::Trap => self.trap,
            Action::Errno => self.errno,
            Action::UserNotif => self.user_notif,
            Action::Trace => self.trace,
            Action::Log => self.log,
            Action::Allow => self.allow,
            Action::Other(_) => self.other,
        }
    }
}
