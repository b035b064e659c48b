//! The files that a summary names at its head.

ghost use Rattle.std.specs.Prelude.{◌≡◌, ◌++◌, OnOk, option_map, string_bytes};
ghost use Rattle.sf_command.specs.Audits.{control_source, source_line, source_lines};

use std::alloc::AllocError;

fn push_source(text: &mut String, role: &str, path: &str) -> Result<(), AllocError>
    ensures { OnOk result (string_bytes text.new ≡ string_bytes text.old
        ++ source_line role.now path.now) }
{
    write!(text, "{role}: {path}\n")
}

pub fn push_sources(text: &mut String, role: &str, paths: &[&str]) -> Result<(), AllocError>
    ensures { OnOk result (string_bytes text.new ≡ string_bytes text.old
        ++ source_lines role.now paths.now) }
{
    for path in paths {
        push_source(text, role, path)?;
    }
    Ok(())
}

pub fn push_control(text: &mut String, control: Option<&str>) -> Result<(), AllocError>
    ensures { OnOk result (string_bytes text.new ≡ string_bytes text.old
        ++ control_source (option_map (λ t. t.now) control.entry)) }
{
    match control {
        Some(path) => push_source(text, "control", path),
        None => Ok(()),
    }
}
