ghost use Rattle.std.specs.Prelude.{◌≡◌, ◌++◌, codes, IfOk, OnOk, string_bytes};
ghost use Rattle.std.specs.List.{flat_map};
ghost use Rattle.build_report.specs.Targets.{targets_text, names_line, trailing_names, target_line};

use msb_values::{List, Name, NoMemory, Text8};
use std::alloc::Global;
use target_order::TargetRow;

/// The targets of a project, line by line: those of its InitialTargets, its default targets, and
/// all in their order.
///
/// (MSBuild command-line reference; Target build order.)
pub fn show_targets(
    alloc: Global,
    rows: &List<TargetRow>,
    initial: &List<Name>,
    default: &List<Name>,
) -> Result<Text8, NoMemory>
    ensures { IfOk result (λ t. t ≡ targets_text rows.now initial.now default.now) }
{
    let mut shown = String::new(alloc);
    push_line(&mut shown, "initial", initial.as_slice())?;
    push_line(&mut shown, "default", default.as_slice())?;
    push_targets(&mut shown, rows.as_slice())?;
    Ok(Text8::from(shown.into_bytes()))
}

fn push_line(shown: &mut String, word: &str, names: &[Name]) -> Result<(), NoMemory>
    ensures { OnOk result (string_bytes shown.new
        ≡ string_bytes shown.old ++ names_line word.now names.now) }
{
    shown.push_str(word)?;
    push_names(shown, names)?;
    Ok(shown.push('\n')?)
}

fn push_names(shown: &mut String, names: &[Name]) -> Result<(), NoMemory>
    ensures { OnOk result (string_bytes shown.new
        ≡ string_bytes shown.old ++ trailing_names names.now) }
{
    match names {
        [] => Ok(()),
        [first, others @ ..] => {
            let first = first.key();
            write!(shown, " {first}")?;
            push_others(shown, others)
        }
    }
}

fn push_others(shown: &mut String, names: &[Name]) -> Result<(), NoMemory>
    ensures { OnOk result (string_bytes shown.new
        ≡ string_bytes shown.old ++ flat_map (λ name. codes ";" ++ name) names.now) }
{
    for name in names {
        let name = name.key();
        write!(shown, ";{name}")?;
    }
    Ok(())
}

fn push_targets(shown: &mut String, rows: &[TargetRow]) -> Result<(), NoMemory>
    ensures { OnOk result (string_bytes shown.new
        ≡ string_bytes shown.old ++ flat_map target_line rows.now) }
{
    for row in rows {
        let name = row.name.key();
        write!(shown, "target {name}\n")?;
    }
    Ok(())
}
