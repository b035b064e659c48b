ghost use Rattle.std.specs.Prelude.{◌≡◌, ◌++◌, OnOk, string_bytes};
ghost use Rattle.sf_stack.specs.Texts.{action_text};

use sf_run::Action;
use std::alloc::AllocError;

/// Appends the name of an action, without `SECCOMP_RET_`, or `OTHER:0x` and its number by eight hexadecimal digits in
/// lower case.
pub fn push_action(text: &mut String, action: Action) -> Result<(), AllocError>
    ensures { OnOk result (string_bytes text.new ≡ string_bytes text.old ++ action_text action) }
{
    match action {
        Action::KillProcess => text.push_str("KILL_PROCESS"),
        Action::KillThread => text.push_str("KILL_THREAD"),
        Action::Trap => text.push_str("TRAP"),
        Action::Errno => text.push_str("ERRNO"),
        Action::UserNotif => text.push_str("USER_NOTIF"),
        Action::Trace => text.push_str("TRACE"),
        Action::Log => text.push_str("LOG"),
        Action::Allow => text.push_str("ALLOW"),
        Action::Other(value) => write!(text, "OTHER:0x{value:08x}"),
    }
}
