// The section BOUNDS: the sides of each column, which later lines set anew.
ghost use Rattle.std.specs.Prelude.{◌≡◌, ◌<◌, ◌∷◌, [], ℕ, List, IfOk, IfErr, IfSome, IfNone, OnOk, slice_set, slice_index_or, ◌++◌, codes, bytes_eq, position, option_map, Option, length, map, ◌^◌, if◌then◌else◌, ◌&&◌, not, true, false, vec_len};
ghost use Rattle.mps_reader.specs.MpsLines.{Line, field, bound_text, bound_column, is_one_of, integer_names, column_names, sets_of, takes_value, takes_none};
ghost use Rattle.mps_reader.specs.MpsRules.{bound_fits, bound_kind, number_kind};
ghost use Rattle.mps_reader.specs.BoundLines.{IsBoundLine, IsSetting, BoundsReady, place_kind};
ghost use Rattle.mps_reader.specs.TakenLines.{IsDataWith};
ghost use Rattle.mps_reader.specs.ColumnTables.{with_bound};
ghost use Rattle.mps_reader.specs.declared.columns.ColumnDraft.{ColumnDraft};
ghost use Rattle.mps_reader.specs.Sets.{AgreesWith};
ghost use Rattle.std.specs.List.{cons_option};
ghost use Rattle.mps_reader.specs.MpsModels.{number_or_zero, bound_lines, column_end_kind, low_of, high_of};
ghost use Rattle.mps_reader.specs.ColumnBounds.{value_word, plain_word, with_line, BoundsAgree};

use crate::MpsKind;
use crate::columns::Columns;
use crate::fault::{SetName, number_within};

const MAX_BOUND: u64 = 1_000_000;

/// A side of a column's bounds: a number, or infinite.
pub(crate) type Limit = Option<i64>;

/// What the lines of BOUNDS say of a column.
#[derive(Clone, Copy, Debug, PartialEq, Eq)]
pub(crate) struct Bounds {
    is_named: bool,
    is_integer: bool,
    low: Option<Limit>,
    high: Option<Limit>,
    /// Whether a line of type UP or UI set the high side last, to a number below 0.
    has_negative_upper: bool,
}

// The types of bounds that take a value.
#[derive(Clone, Copy, Debug, PartialEq, Eq)]
enum ValueBound {
    Lower,
    Upper,
    Fixed,
    IntegerLower,
    IntegerUpper,
}

// The types of bounds that take none.
#[derive(Clone, Copy, Debug, PartialEq, Eq)]
enum PlainBound {
    Free,
    MinusInfinity,
    PlusInfinity,
    Binary,
}

fn value_bound_named(word: &[u8]) -> Option<ValueBound>
    ensures some { IfSome result (λ bound. word.now ≡ value_word bound) }
    ensures none { IfNone result (takes_value word.now ≡ false) }
{
    match word {
        b"LO" => Some(ValueBound::Lower),
        b"UP" => Some(ValueBound::Upper),
        b"FX" => Some(ValueBound::Fixed),
        b"LI" => Some(ValueBound::IntegerLower),
        b"UI" => Some(ValueBound::IntegerUpper),
        _ => None,
    }
}

fn plain_bound_named(word: &[u8]) -> Option<PlainBound>
    ensures some { IfSome result (λ bound. word.now ≡ plain_word bound) }
    ensures none { IfNone result (takes_none word.now ≡ false) }
{
    match word {
        b"FR" => Some(PlainBound::Free),
        b"MI" => Some(PlainBound::MinusInfinity),
        b"PL" => Some(PlainBound::PlusInfinity),
        b"BV" => Some(PlainBound::Binary),
        _ => None,
    }
}

impl Bounds {
    pub(crate) fn new() -> Self
        ensures { BoundsAgree result [] }
    {
        Bounds {
            is_named: false,
            is_integer: false,
            low: None,
            high: None,
            has_negative_upper: false,
        }
    }

    fn set_low(&mut self, limit: Limit)
        ensures { self.new ≡ record self.old { is_named = true; low = Some limit } }
    {
        self.is_named = true;
        self.low = Some(limit);
    }

    fn set_high(&mut self, limit: Limit, is_negative_upper: bool)
        ensures { self.new ≡ record self.old { is_named = true; high = Some limit; has_negative_upper = is_negative_upper } }
    {
        self.is_named = true;
        self.high = Some(limit);
        self.has_negative_upper = is_negative_upper;
    }

    fn set_value(&mut self, bound: ValueBound, value: i64)
        ensures { (l : Line) → field 0 l ≡ value_word bound → number_or_zero (bound_text l) ≡ value → self.new ≡ with_line self.old l }
    {
        match bound {
            ValueBound::Lower => self.set_low(Some(value)),
            ValueBound::Upper => self.set_high(Some(value), value < 0),
            ValueBound::Fixed => {
                self.set_low(Some(value));
                self.set_high(Some(value), false);
            }
            ValueBound::IntegerLower => {
                self.is_integer = true;
                self.set_low(Some(value));
            }
            ValueBound::IntegerUpper => {
                self.is_integer = true;
                self.set_high(Some(value), value < 0);
            }
        }
    }

    fn set_plain(&mut self, bound: PlainBound)
        ensures { (l : Line) → field 0 l ≡ plain_word bound → self.new ≡ with_line self.old l }
    {
        match bound {
            PlainBound::Free => {
                self.set_low(None);
                self.set_high(None, false);
            }
            PlainBound::MinusInfinity => self.set_low(None),
            PlainBound::PlusInfinity => self.set_high(None, false),
            PlainBound::Binary => {
                self.is_integer = true;
                self.set_low(Some(0));
                self.set_high(Some(1), false);
            }
        }
    }

    /// The two sides of a column at the end of the text, where its bounds are good. `is_marked` tells whether it
    /// began in an integer part.
    pub(crate) fn sides(&self, is_marked: bool) -> Result<(Limit, Limit), MpsKind>
        ensures ok { IfOk result (λ sides. (ls : List Line) (column : List ℕ) → BoundsAgree self.now (bound_lines ls column) → is_marked ≡ is_one_of (integer_names ls) column → (column_end_kind ls column ≡ None) × (sides.0 ≡ low_of ls column) × (sides.1 ≡ high_of ls column)) }
        ensures err { IfErr result (λ kind. (ls : List Line) (column : List ℕ) → BoundsAgree self.now (bound_lines ls column) → is_marked ≡ is_one_of (integer_names ls) column → column_end_kind ls column ≡ Some kind) }
    {
        if !is_marked && !self.is_integer {
            return Err(MpsKind::Continuous);
        }
        if self.low.is_none() && self.has_negative_upper {
            return Err(MpsKind::NegativeUpper);
        }
        let low = self.low.unwrap_or(Some(0));
        let high = self.high.unwrap_or(if self.is_implied(is_marked) {
            Some(1)
        } else {
            None
        });
        if low.is_none() || high.is_none() {
            return Err(MpsKind::Unbounded);
        }
        Ok((low, high))
    }

    /// Whether no line names the column, which began in an integer part: its bounds are then 0 and 1.
    pub(crate) fn is_implied(&self, is_marked: bool) -> bool
        ensures { result ≡ (is_marked && not self.now.is_named) }
    {
        is_marked && !self.is_named
    }
}

// What a line sets its column's bounds to.
#[derive(Clone, Copy, Debug, PartialEq, Eq)]
enum Setting<'a> {
    Value(ValueBound, &'a [u8]),
    Plain(PlainBound),
}

// A line of the section.
#[derive(Clone, Copy, Debug, PartialEq, Eq)]
struct BoundLine<'a> {
    setting: Setting<'a>,
    set: Option<&'a [u8]>,
    column: &'a [u8],
}

// The line that fields make behind a type that takes a value.
fn value_line<'a>(bound: ValueBound, fields: &[&'a [u8]]) -> Result<BoundLine<'a>, MpsKind>
    ensures ok { IfOk result (λ b. (l : Line) → l.fields ≡ map (λ f. f.now) fields.now → field 0 l ≡ value_word bound → IsBoundLine b l) }
    ensures err { IfErr result (λ kind. (kind ≡ MpsKind.Fields) × ((l : Line) → l.fields ≡ map (λ f. f.now) fields.now → field 0 l ≡ value_word bound → bound_fits l ≡ false)) }
{
    match fields {
        [_, column, number] => Ok(BoundLine {
            setting: Setting::Value(bound, *number),
            set: None,
            column: *column,
        }),
        [_, set, column, number] => Ok(BoundLine {
            setting: Setting::Value(bound, *number),
            set: Some(*set),
            column: *column,
        }),
        _ => Err(MpsKind::Fields),
    }
}

// The line that fields make behind a type that takes none.
fn plain_line<'a>(bound: PlainBound, fields: &[&'a [u8]]) -> Result<BoundLine<'a>, MpsKind>
    ensures ok { IfOk result (λ b. (l : Line) → l.fields ≡ map (λ f. f.now) fields.now → field 0 l ≡ plain_word bound → IsBoundLine b l) }
    ensures err { IfErr result (λ kind. (kind ≡ MpsKind.Fields) × ((l : Line) → l.fields ≡ map (λ f. f.now) fields.now → field 0 l ≡ plain_word bound → bound_fits l ≡ false)) }
{
    match fields {
        [_, column] => Ok(BoundLine {
            setting: Setting::Plain(bound),
            set: None,
            column: *column,
        }),
        [_, set, column] | [_, set, column, _] => Ok(BoundLine {
            setting: Setting::Plain(bound),
            set: Some(*set),
            column: *column,
        }),
        _ => Err(MpsKind::Fields),
    }
}

// The line that fields make.
fn bound_line<'a>(fields: &[&'a [u8]]) -> Result<BoundLine<'a>, MpsKind>
    requires { 0 < length fields.now }
    ensures ok { IfOk result (λ b. (l : Line) → l.fields ≡ map (λ f. f.now) fields.now → IsBoundLine b l) }
    ensures err { IfErr result (λ kind. (kind ≡ MpsKind.Fields) × ((l : Line) → l.fields ≡ map (λ f. f.now) fields.now → bound_fits l ≡ false)) }
{
    let [word, ..] = fields else {
        return Err(MpsKind::Fields);
    };
    if let Some(bound) = value_bound_named(*word) {
        return value_line(bound, fields);
    }
    match plain_bound_named(*word) {
        Some(bound) => plain_line(bound, fields),
        None => Err(MpsKind::Fields),
    }
}

impl Bounds {
    // Takes what a line sets.
    fn take(&mut self, setting: Setting) -> Result<(), MpsKind>
        ensures ok { OnOk result ((l : Line) → IsSetting setting.entry l → ((if takes_value (field 0 l) then number_kind (10 ^ 6) (bound_text l) else None) ≡ None) × (self.new ≡ with_line self.old l)) }
        ensures err { IfErr result (λ kind. (self.new ≡ self.old) × ((l : Line) → IsSetting setting.entry l → (if takes_value (field 0 l) then number_kind (10 ^ 6) (bound_text l) else None) ≡ Some kind)) }
    {
        match setting {
            Setting::Value(bound, number) => {
                let value = number_within(number, MAX_BOUND)?;
                self.set_value(bound, value);
            }
            Setting::Plain(bound) => self.set_plain(bound),
        }
        Ok(())
    }
}

// The number of the column that a line names, behind the set that it may name.
fn place_of<'a>(
    set: &mut SetName<'a>,
    columns: &Columns<'a>,
    line: BoundLine<'a>,
) -> Result<usize, MpsKind>
    ensures within { IfOk result (λ k. k < vec_len columns.now.table.items) }
    ensures ok { IfOk result (λ k. (earlier : List Line) (l : Line) → IsBoundLine line.entry l → BoundsReady set.old.first columns.now.table.names.keys earlier → (place_kind earlier l ≡ None) × (position (bytes_eq (bound_column l)) (column_names earlier) ≡ Some k) × AgreesWith set.new.first (sets_of (codes "BOUNDS") earlier ++ cons_option (option_map (λ n. n.now) line.entry.set) [])) }
    ensures err { IfErr result (λ kind. (earlier : List Line) (l : Line) → IsBoundLine line.entry l → BoundsReady set.old.first columns.now.table.names.keys earlier → place_kind earlier l ≡ Some kind) }
{
    set.note(line.set)?;
    columns
        .table
        .find(line.column)
        .ok_or(MpsKind::UnknownColumn)
}

/// Takes a line of the section.
pub(crate) fn take_bound<'a>(
    set: &mut SetName<'a>,
    columns: &mut Columns<'a>,
    fields: &[&'a [u8]],
) -> Result<(), MpsKind>
    requires { 0 < length fields.now }
    ensures names { columns.new.table.names ≡ columns.old.table.names }
    ensures current { columns.new.current ≡ columns.old.current }
    ensures part { columns.new.in_integer_part ≡ columns.old.in_integer_part }
    ensures entries { columns.new.entries ≡ columns.old.entries }
    ensures kind { OnOk result ((earlier : List Line) (l : Line) → IsDataWith (codes "BOUNDS") l (map (λ f. f.now) fields.now) → BoundsReady set.old.first columns.old.table.names.keys earlier → bound_kind earlier l ≡ None) }
    ensures sets { OnOk result ((earlier : List Line) (l : Line) → IsDataWith (codes "BOUNDS") l (map (λ f. f.now) fields.now) → BoundsReady set.old.first columns.old.table.names.keys earlier → AgreesWith set.new.first (sets_of (codes "BOUNDS") (earlier ++ l ∷ []))) }
    ensures bounds { OnOk result ((earlier : List Line) (l : Line) (k : ℕ) (d : ColumnDraft) → IsDataWith (codes "BOUNDS") l (map (λ f. f.now) fields.now) → BoundsReady set.old.first columns.old.table.names.keys earlier → position (bytes_eq (bound_column l)) (column_names earlier) ≡ Some k → columns.new.table.items.items ≡ slice_set columns.old.table.items.items k (with_bound (slice_index_or columns.old.table.items.items k d) l)) }
    ensures err { IfErr result (λ kind. (earlier : List Line) (l : Line) → IsDataWith (codes "BOUNDS") l (map (λ f. f.now) fields.now) → BoundsReady set.old.first columns.old.table.names.keys earlier → bound_kind earlier l ≡ Some kind) }
{
    let line = bound_line(fields)?;
    let index = place_of(set, columns, line)?;
    let table = &mut columns.table;
    table.items[index].bounds.take(line.setting)?;
    Ok(())
}
