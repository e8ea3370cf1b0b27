// Names: in which order they are looked for, how each is spelled, and which of them name kinds and energy rules.
ghost use Rattle.std.specs.Prelude.{◌≡◌};
ghost use Rattle.text_theory.specs.Readers.{answered};
ghost use Rattle.text_theory.specs.Words.{all_names, name_text, kind_name, kind_named, rule_name, rule_named};

use energy::EnergyRule;
use pictures::Kind;
use text_theory::Name;

// The kinds that have names.
const KINDS: [Kind; 2] = [Kind::Grey, Kind::Rgb];

// The energy rules that have names.
const RULES: [EnergyRule; 3] = [EnergyRule::Edge, EnergyRule::Flat, EnergyRule::Forward];

// All names, in the order in which they are looked for: one that begins another would stand after it. A constant would promise
// nothing of it.
pub fn all_names() -> [Name; 11]
    ensures { result ≡ all_names }
{
    [
        Name::Multi,
        Name::Size,
        Name::Range,
        Name::Energy,
        Name::Row,
        Name::Map,
        Name::Grey,
        Name::Rgb,
        Name::Edge,
        Name::Flat,
        Name::Forward,
    ]
}

// How a name is spelled.
pub fn letters_of(name: Name) -> &'static [u8]
    ensures { result.now ≡ name_text name }
{
    match name {
        Name::Multi => b"multi",
        Name::Size => b"size",
        Name::Range => b"range",
        Name::Energy => b"energy",
        Name::Row => b"row",
        Name::Map => b"map",
        Name::Grey => b"grey",
        Name::Rgb => b"rgb",
        Name::Edge => b"edge",
        Name::Flat => b"flat",
        Name::Forward => b"forward",
    }
}

// The name of a kind.
pub fn kind_name(kind: Kind) -> Name
    ensures { result ≡ kind_name kind }
{
    match kind {
        Kind::Grey => Name::Grey,
        Kind::Rgb => Name::Rgb,
    }
}

// The kind of a name, if it is one's.
pub fn kind_named(name: Name) -> Option<Kind>
    ensures { answered result ≡ kind_named name }
{
    KINDS.into_iter().find(|kind| kind_name(*kind) == name)
}

// The name of an energy rule.
pub fn rule_name(rule: EnergyRule) -> Name
    ensures { result ≡ rule_name rule }
{
    match rule {
        EnergyRule::Edge => Name::Edge,
        EnergyRule::Flat => Name::Flat,
        EnergyRule::Forward => Name::Forward,
    }
}

// The energy rule of a name, if it is one's.
pub fn rule_named(name: Name) -> Option<EnergyRule>
    ensures { answered result ≡ rule_named name }
{
    RULES.into_iter().find(|rule| rule_name(*rule) == name)
}
