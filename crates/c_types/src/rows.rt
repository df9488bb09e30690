//! What is computed once of a type: its size, its alignment, and whether it ends open.

ghost use Rattle.std.specs.Prelude.{◌≡◌, ◌+◌, ◌≤◌, ◌<◌};
ghost use Rattle.c_types.specs.Shapes.{round_up};
ghost use Rattle.c_types.specs.Rows.{has_size};

/// Whether a type has a size, and how it ends.
#[derive(Clone, Copy, Debug, PartialEq, Eq)]
pub(crate) enum Form {
    /// `void`, or a struct or union without its members.
    Unsized,
    /// An array that is open at its end.
    Open,
    Sized,
    /// A struct with a flexible member.
    Extended,
}

/// A type's size and alignment in bytes, the size being 0 where there is none. An open array is aligned as its elements are.
#[derive(Clone, Copy, Debug, PartialEq, Eq)]
pub(crate) struct TypeRow {
    pub(crate) form: Form,
    pub(crate) size: u32,
    pub(crate) alignment: u32,
}

impl TypeRow {
    pub(crate) fn is_sized(self) -> bool
        ensures { result ≡ has_size self.form }
    {
        matches!(self.form, Form::Sized | Form::Extended)
    }
}

/// The least multiple of a step that is not below a number.
pub(crate) fn rounded_up(step: u32, n: u32) -> u32
    requires step { 1 ≤ step }
    requires few { step ≤ 8 }
    requires small { n ≤ 4000000 }
    ensures value { result ≡ round_up step n }
    ensures near { result < n + 8 }
{
    let past = n % step;
    if past == 0 { n } else { n + (step - past) }
}
