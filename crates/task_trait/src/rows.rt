ghost use Rattle.std.specs.Prelude.{◌≡◌, map, option_map};
ghost use Rattle.std.specs.List.{list_any};
ghost use Rattle.std.specs.Str.{bytes_eq};
ghost use Rattle.msb_values.specs.Pairs.{value_at};
ghost use Rattle.task_trait.specs.Rows.{
  has_parameter,
  is_known,
  is_one_of,
  seen_row,
  takes_list,
  task_rows,
};

/// The parameters of a built-in task: those that are lists of items, and those that are texts.
#[derive(Clone, Copy)]
struct Row {
    lists: &'static [&'static str],
    texts: &'static [&'static str],
}

impl Row {
    /// The row of a task, whose name is in lower case as those of its parameters are; none where
    /// the task is not built in. (MSBuild task reference.)
    fn of(task: &str) -> Option<Row>
        ensures { option_map seen_row result ≡ value_at task.now task_rows }
    {
        match task {
            "copy" => Some(Row {
                lists: &["destinationfiles", "sourcefiles"],
                texts: &["destinationfolder", "skipunchangedfiles"],
            }),
            "createitem" => Some(Row {
                lists: &["additionalmetadata", "exclude", "include"],
                texts: &[],
            }),
            "createproperty" => Some(Row {
                lists: &["value"],
                texts: &[],
            }),
            "delete" => Some(Row {
                lists: &["files"],
                texts: &[],
            }),
            "error" => Some(Row {
                lists: &[],
                texts: &["text"],
            }),
            "message" => Some(Row {
                lists: &[],
                texts: &["importance", "text"],
            }),
            "msbuild" => Some(Row {
                lists: &["projects", "properties", "removeproperties", "targets"],
                texts: &[
                    "buildinparallel",
                    "runeachtargetseparately",
                    "skipnonexistentprojects",
                    "stoponfirstfailure",
                ],
            }),
            "readlinesfromfile" => Some(Row {
                lists: &[],
                texts: &["file"],
            }),
            "warning" => Some(Row {
                lists: &[],
                texts: &["text"],
            }),
            "writelinestofile" => Some(Row {
                lists: &["lines"],
                texts: &["file", "overwrite"],
            }),
            _ => None,
        }
    }

    /// Whether the task has a parameter of this name.
    fn has(&self, name: &str) -> bool
        ensures { result ≡ has_parameter name.now (seen_row self.now) }
    {
        is_one_of(self.lists, name) || is_one_of(self.texts, name)
    }
}

/// Whether a task takes this parameter as a list of items, both named in lower case: any other
/// parameter of a built-in task is one text, and every one of a tool is a list. (MSBuild task
/// reference.)
pub fn takes_list(task: &str, name: &str) -> bool
    ensures { result ≡ takes_list task.now name.now }
{
    match Row::of(task) {
        Some(row) => is_one_of(row.lists, name),
        None => true,
    }
}

/// Whether a built-in task of this name has this parameter.
pub(crate) fn is_known(task: &str, name: &str) -> bool
    ensures { result ≡ is_known task.now name.now }
{
    match Row::of(task) {
        Some(row) => row.has(name),
        None => false,
    }
}

fn is_one_of(names: &[&str], name: &str) -> bool
    ensures { result ≡ is_one_of name.now (map (λ one. one.now) names.now) }
{
    any_is(names, name)
}

fn any_is(names: &[&str], name: &str) -> bool
    ensures { result ≡ list_any (λ one. bytes_eq name.now one.now) names.now }
{
    names.iter().any(|one| name == *one)
}
