ghost use Rattle.std.specs.Prelude.{◌≡◌};
ghost use Rattle.msb_properties.specs.Laid.{part_of};

/// What becomes of a child of a Project, an ImportGroup, a When or an Otherwise.
#[derive(Clone, Copy)]
pub(crate) enum Part {
    Imported,
    Grouped,
    Chosen,
    PassedOver,
    LaidOut,
}

impl Part {
    pub(crate) fn of(name: &str) -> Part
        ensures { result ≡ part_of name.now }
    {
        match name {
            "Import" => Part::Imported,
            "ImportGroup" => Part::Grouped,
            "Choose" => Part::Chosen,
            "UsingTask" | "ProjectExtensions" => Part::PassedOver,
            _ => Part::LaidOut,
        }
    }
}
