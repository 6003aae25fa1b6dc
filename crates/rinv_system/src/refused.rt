//! Why a text is refused, and on which line.

ghost use Rattle.std.specs.Prelude.{◌≡◌};
ghost use Rattle.rinv_system.specs.Codes.{field_word, text_word};

use rinv_ring::FieldFault;
use rinv_text::TextCode;
use std::alloc::{AllocError as NoMemory, AllocFailed};
use std::fmt;

/// What is wrong with a line.
#[derive(Clone, Copy, Debug, PartialEq, Eq)]
pub enum Code {
    /// It has a byte that is not allowed.
    NotText,
    /// Its first word begins no line.
    Word,
    /// A line that must have come has not.
    Missing,
    /// Its word came before.
    Twice,
    /// Its list has another length than the group or the space.
    Count,
    /// Its number is no modulus.
    Field(FieldFault),
    /// Its numbers, names or polynomials have a fault.
    Text(TextCode),
}

impl fmt::Display for Code {
    ghost use Rattle.std.specs.Prelude.{Some};
    ghost use Rattle.rinv_system.specs.Codes.{code_word};

    ghost output = { λ code. Some (code_word code) };

    fn fmt<W: fmt::Write>(&self, f: &mut fmt::Formatter<W>) -> fmt::Result {
        f.write_str(match self {
            Code::NotText => "NotText",
            Code::Word => "Word",
            Code::Missing => "Missing",
            Code::Twice => "Twice",
            Code::Count => "Count",
            Code::Field(fault) => field_word(*fault),
            Code::Text(code) => text_word(*code),
        })
    }
}

// The code of a number that is no modulus.
fn field_word(fault: FieldFault) -> &'static str
    ensures { result.now ≡ field_word fault }
{
    match fault {
        FieldFault::TooSmall => "Field too small",
        FieldFault::TooLarge => "Field too large",
        FieldFault::NotListed => "Field not listed",
    }
}

// The code of a number, a name or a polynomial with a fault.
fn text_word(code: TextCode) -> &'static str
    ensures { result.now ≡ text_word code }
{
    match code {
        TextCode::Expression => "Expression",
        TextCode::Name => "Name",
        TextCode::Limit => "Limit",
        TextCode::FormalDegree => "FormalDegree",
        TextCode::FormalTerms => "FormalTerms",
        TextCode::ZeroDenominator => "ZeroDenominator",
    }
}

/// Why a line tells nothing.
#[derive(Clone, Copy, Debug, PartialEq, Eq)]
pub enum LineStop {
    /// The line is refused.
    Fault(Code),
    NoMemory,
}

impl From<NoMemory> for LineStop {
    ghost use Rattle.std.specs.Prelude.{◌≡◌};
    ghost use Rattle.rinv_system.specs.declared.refused.LineStop.TheVariants.{NoMemory};

    ghost from_gives = { λ _ e. e ≡ NoMemory };

    fn from(_error: NoMemory) -> LineStop {
        LineStop::NoMemory
    }
}

impl<T: Drop> From<AllocFailed<T>> for LineStop {
    ghost use Rattle.std.specs.Prelude.{◌≡◌};
    ghost use Rattle.rinv_system.specs.declared.refused.LineStop.TheVariants.{NoMemory};

    ghost from_gives = { λ _ e. e ≡ NoMemory };

    fn from(_error: AllocFailed<T>) -> LineStop {
        LineStop::NoMemory
    }
}

impl From<Code> for LineStop {
    ghost use Rattle.std.specs.Prelude.{◌≡◌};
    ghost use Rattle.rinv_system.specs.declared.refused.LineStop.TheVariants.{Fault};

    ghost from_gives = { λ c e. e ≡ Fault c };

    fn from(code: Code) -> LineStop {
        LineStop::Fault(code)
    }
}

/// The line, counted from 1, and its first fault.
#[derive(Clone, Copy, Debug, PartialEq, Eq)]
pub struct Refused {
    pub line: u32,
    pub code: Code,
}

/// Why a text gives no system.
#[derive(Clone, Copy, Debug, PartialEq, Eq)]
pub enum SystemStop {
    Refused(Refused),
    NoMemory,
}

impl From<NoMemory> for SystemStop {
    ghost use Rattle.std.specs.Prelude.{◌≡◌};
    ghost use Rattle.rinv_system.specs.declared.refused.SystemStop.TheVariants.{NoMemory};

    ghost from_gives = { λ _ e. e ≡ NoMemory };

    fn from(_error: NoMemory) -> SystemStop {
        SystemStop::NoMemory
    }
}
