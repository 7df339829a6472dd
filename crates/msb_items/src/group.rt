ghost use Rattle.std.specs.Prelude.{◌≡◌, option_copied};
ghost use Rattle.msb_items.specs.TargetGroups.{group_of, own_type};

use msb_values::Name;

/// Which elements stand in a group in a target.
#[derive(Clone, Copy)]
pub(crate) enum Group {
    /// Property elements, of a PropertyGroup.
    Properties,
    /// Item elements, of an ItemGroup.
    Items,
}

impl Group {
    pub(crate) fn of(name: &str) -> Group
        ensures { result ≡ group_of name.now }
    {
        if name == "PropertyGroup" {
            Group::Properties
        } else {
            Group::Items
        }
    }

    /// The item type that an element of this name is batched by besides its texts.
    pub(crate) fn own_type(self, name: &Name) -> Option<&Name>
        ensures { option_copied result ≡ own_type self name.now }
    {
        match self {
            Group::Properties => None,
            Group::Items => Some(name),
        }
    }
}
