// Why a line can't be taken, and the checks that more than one section makes.
ghost use Rattle.std.specs.Prelude.{◌≡◌, ◌<◌, ◌≤◌, option_map, ◌∷◌, ◌++◌, [], List, ℕ, Option, IfOk, IfErr, OnOk, OnErr, length, unsigned_abs, true, false, if◌then◌else◌};
ghost use Rattle.num_text.specs.NumberText.{number_of};
ghost use Rattle.mps_reader.specs.MpsRules.{number_kind, is_long, is_second};
ghost use Rattle.mps_reader.specs.Faults.{IsFault};
ghost use Rattle.mps_reader.specs.Endings.{error_at};
ghost use Rattle.mps_reader.specs.Sets.{AgreesWith, is_other};
ghost use Rattle.std.specs.List.{cons_option};
ghost use Rattle.mps_reader.specs.declared.fault.Fault.TheVariants as fault;

use crate::{MpsError, MpsKind};
use int_model::Name;
use num_text::{NumberError, read_number};
use std::alloc::{AllocError, AllocFailed, Global};

/// Why a line can't be taken.
#[derive(Clone, Copy, Debug, PartialEq, Eq)]
pub(crate) enum Fault {
    Refused(MpsKind),
    Memory,
}

impl Fault {
    /// The error of the whole text, where the fault came at this line.
    pub(crate) fn at(self, line: u32) -> MpsError
        ensures { result ≡ error_at line self }
    {
        match self {
            Fault::Refused(kind) => MpsError::Line { line, kind },
            Fault::Memory => MpsError::Memory,
        }
    }
}

impl From<MpsKind> for Fault {
    ghost from_gives = { λ kind f. f ≡ fault.Refused kind };

    fn from(kind: MpsKind) -> Self {
        Fault::Refused(kind)
    }
}

impl From<AllocError> for Fault {
    ghost from_gives = { λ _ f. f ≡ fault.Memory };

    fn from(_: AllocError) -> Self {
        Fault::Memory
    }
}

impl<T: Drop> From<AllocFailed<T>> for Fault {
    ghost from_gives = { λ _ f. f ≡ fault.Memory };

    fn from(_: AllocFailed<T>) -> Self {
        Fault::Memory
    }
}

/// The greatest length of a name in bytes.
const MAX_NAME: usize = 255;

/// A field as the name of a row or a column.
pub(crate) fn name_of(alloc: Global, field: &[u8]) -> Result<Name, Fault>
    requires { 0 < length field.now }
    ensures ok { IfOk result (λ name. (is_long field.now ≡ false) × (name ≡ field.now)) }
    ensures err { IfErr result (λ fault. IsFault fault (if is_long field.now then Some MpsKind.LongName else None)) }
{
    if field.len() > MAX_NAME {
        return Err(Fault::Refused(MpsKind::LongName));
    }
    Ok(Name::from_vec(field.to_vec(alloc)?))
}

/// The whole number that a field spells, of at most this absolute value.
pub(crate) fn number_within(field: &[u8], most: u64) -> Result<i64, MpsKind>
    ensures limit { IfOk result (λ z. unsigned_abs z ≤ most) }
    ensures ok { IfOk result (λ z. (number_kind most field.now ≡ None) × (number_of field.now ≡ Ok z)) }
    ensures err { IfErr result (λ kind. number_kind most field.now ≡ Some kind) }
{
    match read_number(field) {
        Ok(value) => {
            if value.unsigned_abs() <= most {
                Ok(value)
            } else {
                Err(MpsKind::Magnitude)
            }
        }
        Err(NumberError::NotNumber) => Err(MpsKind::Number),
        Err(NumberError::Fraction) => Err(MpsKind::Fraction),
        Err(NumberError::TooWide) => Err(MpsKind::Magnitude),
    }
}

/// The name of a section's set, which is the first one given there.
#[derive(Clone, Copy, Debug, PartialEq, Eq)]
pub(crate) struct SetName<'a> {
    first: Option<&'a [u8]>,
}

impl<'a> SetName<'a> {
    pub(crate) fn new() -> Self
        ensures { AgreesWith result.first [] }
    {
        SetName { first: None }
    }

    /// Notes the set that a line names. A second one is refused.
    pub(crate) fn accept(&mut self, name: &'a [u8]) -> Result<(), MpsKind>
        ensures ok { OnOk result ((sets : List (List ℕ)) → AgreesWith self.old.first sets → (is_second sets name.entry.now ≡ false) × AgreesWith self.new.first (sets ++ name.entry.now ∷ [])) }
        ensures err { IfErr result (λ kind. (kind ≡ MpsKind.SecondSet) × ((sets : List (List ℕ)) → AgreesWith self.old.first sets → is_second sets name.entry.now ≡ true)) }
    {
        match self.first {
            None => self.first = Some(name),
            Some(first) => {
                if first != name {
                    return Err(MpsKind::SecondSet);
                }
            }
        }
        Ok(())
    }

    /// Notes the set that a line may name.
    pub(crate) fn note(&mut self, name: Option<&'a [u8]>) -> Result<(), MpsKind>
        ensures ok { OnOk result ((sets : List (List ℕ)) → AgreesWith self.old.first sets → (is_other sets (option_map (λ n. n.now) name.entry) ≡ false) × AgreesWith self.new.first (sets ++ cons_option (option_map (λ n. n.now) name.entry) [])) }
        ensures err { IfErr result (λ kind. (kind ≡ MpsKind.SecondSet) × ((sets : List (List ℕ)) → AgreesWith self.old.first sets → is_other sets (option_map (λ n. n.now) name.entry) ≡ true)) }
    {
        match name {
            Some(name) => self.accept(name),
            None => Ok(()),
        }
    }
}
