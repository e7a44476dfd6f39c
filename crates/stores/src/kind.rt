//! The four kinds of imports.

ghost use Rattle.std.specs.Prelude.{◌≡◌};
ghost use Rattle.stores.specs.Kinds.{kind_name, kind_of};

/// What the rows of an import are.
#[derive(Clone, Copy, Debug, PartialEq, Eq)]
pub enum Kind {
    Accounts,
    Apps,
    Versions,
    Workunits,
}

impl Kind {
    /// The kind with this name.
    pub fn of(name: &str) -> Option<Kind>
        ensures { result ≡ kind_of name.now }
    {
        match name {
            "accounts" => Some(Kind::Accounts),
            "apps" => Some(Kind::Apps),
            "versions" => Some(Kind::Versions),
            "workunits" => Some(Kind::Workunits),
            _ => None,
        }
    }

    pub fn name(self) -> &'static str
        ensures { result.now ≡ kind_name self }
    {
        match self {
            Kind::Accounts => "accounts",
            Kind::Apps => "apps",
            Kind::Versions => "versions",
            Kind::Workunits => "workunits",
        }
    }
}
