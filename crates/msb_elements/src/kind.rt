//! The table of the elements, as look-ups.
ghost use Rattle.std.specs.Prelude.{◌≡◌, Some, is_some};
ghost use Rattle.msb_elements.specs.Rows.{row_of, table, has_clashes};
ghost use Rattle.msb_elements.specs.Stands.{is_listed, kind_named, child_kind};
ghost use Rattle.msb_elements.specs.Projects.{is_looked_into};
ghost use Rattle.msb_elements.specs.declared.kind.Kind.TheVariants.{Project, Item, Target, When};

/// What an element is.
///
/// An item and its group are another kind in a target, where they may have more attributes.
#[derive(Clone, Copy)]
pub enum Kind {
    Project,
    ProjectExtensions,
    PropertyGroup,
    Property,
    ItemGroup,
    Item,
    TargetItemGroup,
    TargetItem,
    ItemDefinitionGroup,
    Definition,
    Metadata,
    Import,
    ImportGroup,
    Choose,
    When,
    Otherwise,
    UsingTask,
    Target,
    Task,
    Output,
    OnError,
}

/// What an attribute is on its element.
#[derive(Clone, Copy)]
pub enum Role {
    /// It has a meaning of its own, or is ignored.
    Known,
    /// It is a metadata or a parameter of its name.
    Named,
    /// It may not stand there.
    NotAllowed,
}

/// Whether an element may stand where it does.
#[derive(Clone, Copy)]
pub enum Standing {
    Stands(Kind),
    /// It is an element of the table, if any, that may not stand there.
    Misplaced(Option<Kind>),
    /// Its name is no element's.
    Unknown,
}

impl Kind {
    ghost use Rattle.msb_elements.specs.Stands.{kind_named, child_kind, role_of};

    /// The element of the table that has this name.
    pub fn of_table(name: &str) -> Option<Kind>
        ensures { result ≡ kind_named name.now table }
    {
        match name {
            "Project" => Some(Kind::Project),
            "ProjectExtensions" => Some(Kind::ProjectExtensions),
            "PropertyGroup" => Some(Kind::PropertyGroup),
            "ItemGroup" => Some(Kind::ItemGroup),
            "ItemDefinitionGroup" => Some(Kind::ItemDefinitionGroup),
            "Import" => Some(Kind::Import),
            "ImportGroup" => Some(Kind::ImportGroup),
            "Choose" => Some(Kind::Choose),
            "When" => Some(Kind::When),
            "Otherwise" => Some(Kind::Otherwise),
            "UsingTask" => Some(Kind::UsingTask),
            "Target" => Some(Kind::Target),
            "Output" => Some(Kind::Output),
            "OnError" => Some(Kind::OnError),
            _ => None,
        }
    }

    /// What a child of this name is, if it may stand below this element.
    pub fn child(self, name: &str) -> Option<Kind>
        ensures { result ≡ child_kind (Some self) name.now }
    {
        match self {
            Kind::Project => child_of_project(name),
            Kind::PropertyGroup => Some(Kind::Property),
            Kind::ItemGroup => Some(Kind::Item),
            Kind::TargetItemGroup => Some(Kind::TargetItem),
            Kind::ItemDefinitionGroup => Some(Kind::Definition),
            Kind::Item | Kind::TargetItem | Kind::Definition => Some(Kind::Metadata),
            Kind::ImportGroup => if name == "Import" {
                Some(Kind::Import)
            } else {
                None
            },
            Kind::Choose => match name {
                "When" => Some(Kind::When),
                "Otherwise" => Some(Kind::Otherwise),
                _ => None,
            },
            Kind::When | Kind::Otherwise => child_of_branch(name),
            Kind::Target => child_of_target(name),
            Kind::Task => if name == "Output" {
                Some(Kind::Output)
            } else {
                None
            },
            Kind::ProjectExtensions
            | Kind::Property
            | Kind::Metadata
            | Kind::Import
            | Kind::UsingTask
            | Kind::Output
            | Kind::OnError => None,
        }
    }

    /// Whether the element has a name of the table, and not one of its own.
    pub fn has_tag(self) -> bool
        ensures { result ≡ is_some (row_of self).tag }
    {
        !matches!(
            self,
            Kind::Property
                | Kind::Item
                | Kind::TargetItem
                | Kind::Definition
                | Kind::Metadata
                | Kind::Task
        )
    }

    /// Whether the element may have a text.
    pub fn has_text(self) -> bool
        ensures { result ≡ (row_of self).text }
    {
        matches!(
            self,
            Kind::ProjectExtensions | Kind::Property | Kind::Metadata
        )
    }

    /// Whether what is below the element matters.
    pub fn is_looked_into(self) -> bool
        ensures { result ≡ is_looked_into self }
    {
        !matches!(self, Kind::ProjectExtensions)
    }

    /// Whether the element has attributes that may not stand together, beside metadata of one name.
    pub fn keeps_apart(self) -> bool
        ensures { result ≡ has_clashes (row_of self).clashes }
    {
        matches!(self, Kind::Item | Kind::TargetItem | Kind::Output)
    }

    /// What an attribute of this name is on the element.
    pub fn role(self, name: &str) -> Role
        ensures { result ≡ role_of self name.now }
    {
        if name == "Label" || self.lists(name) {
            return Role::Known;
        }
        match self {
            Kind::ProjectExtensions | Kind::UsingTask => Role::Known,
            Kind::Item | Kind::TargetItem | Kind::Definition | Kind::Task => Role::Named,
            _ => Role::NotAllowed,
        }
    }

    fn lists(self, name: &str) -> bool
        ensures { result ≡ is_listed name.now (row_of self).attributes }
    {
        match self {
            Kind::Project => matches!(
                name,
                "DefaultTargets"
                    | "InitialTargets"
                    | "TreatAsLocalProperty"
                    | "ToolsVersion"
                    | "xmlns"
            ),
            Kind::Item => is_of_item(name),
            Kind::TargetItem => {
                is_of_item(name)
                    || matches!(name, "KeepDuplicates" | "KeepMetadata" | "RemoveMetadata")
            }
            Kind::Import => matches!(name, "Project" | "Condition"),
            Kind::Target => is_of_target(name),
            Kind::Task => matches!(
                name,
                "ContinueOnError" | "MSBuildArchitecture" | "MSBuildRuntime" | "Condition"
            ),
            Kind::Output => matches!(
                name,
                "TaskParameter" | "ItemName" | "PropertyName" | "Condition"
            ),
            Kind::OnError => matches!(name, "ExecuteTargets" | "Condition"),
            Kind::ProjectExtensions | Kind::Choose | Kind::Otherwise | Kind::UsingTask => false,
            _ => name == "Condition",
        }
    }
}

fn is_of_item(name: &str) -> bool
    ensures { result ≡ is_listed name.now (row_of Item).attributes }
{
    matches!(
        name,
        "Include" | "Exclude" | "Remove" | "Update" | "Condition"
    )
}

fn is_of_target(name: &str) -> bool
    ensures { result ≡ is_listed name.now (row_of Target).attributes }
{
    matches!(
        name,
        "Name"
            | "DependsOnTargets"
            | "BeforeTargets"
            | "AfterTargets"
            | "Inputs"
            | "Outputs"
            | "Returns"
            | "KeepDuplicateOutputs"
            | "Condition"
    )
}

fn child_of_project(name: &str) -> Option<Kind>
    ensures { result ≡ child_kind (Some Project) name.now }
{
    match name {
        "PropertyGroup" => Some(Kind::PropertyGroup),
        "ItemGroup" => Some(Kind::ItemGroup),
        "ItemDefinitionGroup" => Some(Kind::ItemDefinitionGroup),
        "Import" => Some(Kind::Import),
        "ImportGroup" => Some(Kind::ImportGroup),
        "Choose" => Some(Kind::Choose),
        "UsingTask" => Some(Kind::UsingTask),
        "Target" => Some(Kind::Target),
        "ProjectExtensions" => Some(Kind::ProjectExtensions),
        _ => None,
    }
}

/// Below When and Otherwise.
fn child_of_branch(name: &str) -> Option<Kind>
    ensures { result ≡ child_kind (Some When) name.now }
{
    match name {
        "PropertyGroup" => Some(Kind::PropertyGroup),
        "ItemGroup" => Some(Kind::ItemGroup),
        "ItemDefinitionGroup" => Some(Kind::ItemDefinitionGroup),
        "Choose" => Some(Kind::Choose),
        _ => None,
    }
}

/// A name that the table has nowhere is a task.
fn child_of_target(name: &str) -> Option<Kind>
    ensures { result ≡ child_kind (Some Target) name.now }
{
    match name {
        "PropertyGroup" => Some(Kind::PropertyGroup),
        "ItemGroup" => Some(Kind::TargetItemGroup),
        "OnError" => Some(Kind::OnError),
        _ => match Kind::of_table(name) {
            None => Some(Kind::Task),
            Some(_) => None,
        },
    }
}

impl Standing {
    ghost use Rattle.msb_elements.specs.Rows.{table};
    ghost use Rattle.msb_elements.specs.Stands.{standing_of, elsewhere, kind_named};

    /// What an element of this name is below such a parent; the root has none.
    pub fn of(parent: Option<Kind>, name: &str) -> Standing
        ensures { result ≡ standing_of parent name.now }
    {
        let child = match parent {
            None => if name == "Project" {
                Some(Kind::Project)
            } else {
                None
            },
            Some(kind) => kind.child(name),
        };
        match child {
            Some(kind) => Standing::Stands(kind),
            None => Standing::elsewhere(parent, name),
        }
    }

    /// What an element is that may not stand there.
    fn elsewhere(parent: Option<Kind>, name: &str) -> Standing
        ensures { result ≡ elsewhere parent (kind_named name.now table) }
    {
        match (Kind::of_table(name), parent) {
            (None, Some(_)) => Standing::Unknown,
            (other, _) => Standing::Misplaced(other),
        }
    }
}
